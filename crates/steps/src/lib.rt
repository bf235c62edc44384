// One request, judged once for both engines, and its effects on bytes: document 01's "The tape a file is" and "Answer numbers".
#![tactic(auto)]

use directory::Entry;
use requests::Answer;
use sessions::OpenFile;

// What a request comes to: the answer, and the next entry and the next state of its file.
#[derive(Clone, Copy)]
pub struct Verdict {
    pub answer: Answer,
    pub entry: Entry,
    pub file: OpenFile,
}
