// What is due, on a record as bytes. `duties` works on bytes whose check passed; `write_due` checks them first.
#![tactic(auto)]

ghost use Rattle.std.specs.Prelude.{◌≡◌, length};
ghost use Rattle.numbers.specs.Refusal.{first_of};
ghost use Rattle.numbers.specs.Outcome.{number_of};
ghost use Rattle.record_due.specs.Call.{due_first, record_due, record_due_buffer};

mod duties;

use letters::Written;
use numbers::{LONGEST_MESSAGE, Refusal};
use record::{SIZE, check};

// Whether what is due can be written into a buffer of a size: refused for either length, and for a damaged record.
#[tactic(auto, unfolding(crate::specs::Call::due_first))]
fn may_write(bytes: &[u8], size: usize) -> Result<(), Refusal>
    ensures { number_of result ≡ first_of (due_first bytes.now size) }
{
    if size < LONGEST_MESSAGE {
        return Err(Refusal::Length);
    }
    check(bytes)
}

// Writes what is due to a node: refused for either length, for a damaged record, then as `due` refuses.
// Ruled out: 'damaged' before 'length' for a short buffer; a buffer altered where the bytes are no record.
pub fn write_due(bytes: &[u8], me: u8, node: u8, object: u8, out: &mut [u8]) -> Written
    ensures value { result ≡ record_due bytes.now me node object (length out.old) }
    ensures out_after { out.new ≡ record_due_buffer bytes.now me node object out.old }
{
    match may_write(bytes, out.len()) {
        Ok(()) => duties::write(&bytes[..SIZE], me, node, object, out),
        Err(refusal) => Written {
            number: u8::from(refusal),
            length: 0,
        },
    }
}
