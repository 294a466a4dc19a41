// The line of a PRINT.
ghost use Rattle.std.specs.Prelude.{◌≡◌, ◌++◌, [], All, map, IfOk, OnOk};
ghost use Rattle.fd_prog.specs.Programs.{program_of};
ghost use Rattle.fd_prog.specs.Sequence as sequence;
ghost use Rattle.fd_prog.specs.Statements.{print_item_of};
ghost use Rattle.fd_prog.specs.Stores.{readings_of};
ghost use Rattle.fd_prog.specs.WellFormed.{names_of, IsSoundItem};
ghost use Rattle.seq_meaning.specs.Stored.{store_of, map_ok};
ghost use Rattle.seq_meaning.specs.Text.{separated};

use crate::simple::value;
use crate::store::Store;
use crate::task::Task;
use fd_base::{Bytes, FaultKind, Memory};
use fd_prog::Part;
use std::alloc::Global;

/// The texts of all items, one blank between them, or the first fault.
pub fn line_text(
    alloc: Global,
    task: &Task,
    parts: &[Part],
    store: &Store,
) -> Result<Result<Bytes, FaultKind>, Memory>
    requires { All (IsSoundItem (names_of (program_of task.now.program.now))) (map print_item_of parts.now) }
    ensures { IfOk result (λ text. sequence.line_text (readings_of (program_of task.now.program.now) (store_of store.now)) (map print_item_of parts.now) ≡ text) }
{
    let mut line = Bytes::new(alloc);
    for (index, part) in parts.iter().enumerate() {
        match append_item(task, part, index == 0, store, &mut line)? {
            Ok(()) => {}
            Err(kind) => return Ok(Err(kind)),
        }
    }
    Ok(Ok(line))
}

// Appends the text of an item, behind a blank unless it is the first, or leaves the line as it is at a fault.
fn append_item(
    task: &Task,
    part: &Part,
    is_first: bool,
    store: &Store,
    line: &mut Bytes,
) -> Result<Result<(), FaultKind>, Memory>
    requires { IsSoundItem (names_of (program_of task.now.program.now)) (print_item_of part.now) }
    ensures { IfOk result (λ r. map_ok (λ text. line.old ++ separated is_first text) (sequence.item_text (readings_of (program_of task.now.program.now) (store_of store.now)) (print_item_of part.now)) ≡ map_ok (λ _. line.new) r) }
{
    match part {
        Part::Words(text) => {
            separate(is_first, line)?;
            line.append(text.as_slice())?;
            Ok(Ok(()))
        }
        Part::Value(e) => match value(task, e, store) {
            Ok(number) => {
                separate(is_first, line)?;
                line.append_signed(number)?;
                Ok(Ok(()))
            }
            Err(kind) => Ok(Err(kind)),
        },
    }
}

// Appends the blank before an item, unless it is the first.
fn separate(is_first: bool, line: &mut Bytes) -> Result<(), Memory>
    ensures { OnOk result (line.new ≡ line.old ++ separated is_first []) }
{
    if is_first { Ok(()) } else { line.push(b' ') }
}
