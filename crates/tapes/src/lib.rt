// Tapes of records and rows of granules: what the files mean. Definitions only, in specs/.
#![tactic(auto)]
