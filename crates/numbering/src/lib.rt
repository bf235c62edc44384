// What C reads as numbers, where Rattle has enums: the answer to a code that names no request, where a file stands, the size of a code.
#![tactic(auto)]

ghost use Rattle.std.specs.Prelude.{◌≡◌, min, length};
ghost use Rattle.std.proofs.lemmas.List.Edits.{sets};
ghost use Rattle.decoding.specs.Decode as Decode;
ghost use Rattle.coding.specs.Encode as Encode;
ghost use Rattle.requests.specs.Numbers.{number_of};
ghost use Rattle.numbering.specs.Codes.{unknown_number, standing, record_at, code_size};

use requests::{Answer, Refusal};
use sessions::Spot;

// The answer to a code that names no request, where a look gives that answer.
// Stays: a refusal told by its number, since the definition (unknown_number) has it so.
#[tactic(auto, unfolding(crate::specs::Codes::unknown_number))]
pub fn unknown(look: Answer) -> Answer
    ensures { number_of result ≡ unknown_number look }
{
    if 8 <= u16::from(look) {
        look
    } else {
        Answer::Refused(Refusal::WrongSequence)
    }
}

// Where a file stands: 0 not open, 1 open, 2 open and beyond the mark; its record goes into at.
// Stays: a number and a place lent for the record, since C reads them (lleuadrys_position).
#[tactic(auto, unfolding(crate::specs::Codes::standing, crate::specs::Codes::record_at))]
pub fn tell(spot: Option<Spot>, at: &mut u32) -> u16
    ensures { (result ≡ standing spot) × (at.new ≡ record_at spot at.old) }
{
    match spot {
        None => 0,
        Some(Spot { record, beyond }) => {
            *at = record;
            if beyond { 2 } else { 1 }
        }
    }
}

// Decodes the record that a code begins with; the number of the code's bytes, 0 where it is bad.
// Stays: 0 for a bad code, since C reads one number (lleuadrys_decode).
pub fn decode(code: &[u8], text: &mut [u8]) -> usize
    ensures { (result ≡ code_size (Decode.decode (length text.old) code.now))
        × (text.new ≡ Decode.given (Decode.decode (length text.old) code.now) text.old) }
{
    decoding::decode(code, text).unwrap_or(0)
}

// Codes a record, as far as there is room; the number of bytes put there.
pub fn encode(text: &[u8], code: &mut [u8]) -> usize
    ensures { (result ≡ min (length (Encode.encode text.now)) (length code.old)) × (code.new ≡ sets code.old 0 (Encode.encode text.now)) }
{
    let n = coding::encode(text, code);
    n.min(code.len())
}
