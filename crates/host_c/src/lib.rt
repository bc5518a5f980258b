// The library for C: numbers and byte slices (a slice is a pointer and a size_t), no heap, no state of its own. Each function here is the one of the same
// name in `host`, exported: it calls that one and states its clauses again, and what each rules out is said there.
#![tactic(auto)]

mod images;
mod messages;
mod records;
mod replicas;
mod setup;
mod stations;

ghost use Rattle.std.specs.Prelude.{◌≡◌, cond};
ghost use Rattle.quorum.specs.declared.Kind.TheVariants.{Read, Write};
ghost use Rattle.quorum.specs.Quorum.{is_quorum};
ghost use Rattle.host.specs.Nearest.{nearest_answer};

use host::Chosen;

#[unsafe(no_mangle)]
pub extern "C" fn senna_is_read_quorum(mask: u16) -> u8
    ensures { result ≡ cond (is_quorum Read mask) 1 0 }
{
    host::senna_is_read_quorum(mask)
}

#[unsafe(no_mangle)]
pub extern "C" fn senna_is_write_quorum(mask: u16) -> u8
    ensures { result ≡ cond (is_quorum Write mask) 1 0 }
{
    host::senna_is_write_quorum(mask)
}

#[unsafe(no_mangle)]
pub extern "C" fn senna_nearest_read(live: u16, distances: &[u8], asker: u8) -> Chosen
    ensures { result ≡ nearest_answer Read live distances.now asker }
{
    host::senna_nearest_read(live, distances, asker)
}

#[unsafe(no_mangle)]
pub extern "C" fn senna_nearest_write(live: u16, distances: &[u8], asker: u8) -> Chosen
    ensures { result ≡ nearest_answer Write live distances.now asker }
{
    host::senna_nearest_write(live, distances, asker)
}
