// What a node's record and settings tell their host.
ghost use Rattle.std.specs.Prelude.{◌≡◌};
ghost use Rattle.frontend.specs.Tell.{waiting_of};

use crate::calls::{check_lent, refused, taken};
use record::Called;
use settings::{CLASSES, KIND, tenths};

// The tenths that wait in a class. Ruled out: those that a batch leaves over before it is committed; 0 for a class that the table does not have.
pub fn waiting(bytes: &[u8], settings: &[u8], class: u8) -> Called
    ensures { result ≡ waiting_of bytes.now settings.now class }
{
    let number = numbers::number(check_lent(bytes, settings));
    if number != 0 {
        return refused(number);
    }
    let count = classes::count(&settings[CLASSES..KIND]);
    if count <= usize::from(class) {
        return refused(numbers::NO_SUCH_OBJECT);
    }
    let list = tenths(bytes, settings);
    taken(u64::from(list[usize::from(class)]))
}
