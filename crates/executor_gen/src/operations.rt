// The operations of nodes as instructions.
ghost use Rattle.std.specs.Prelude.{◌≡◌, ◌++◌, ◌≤◌, ℕ, IfOk, map, length, replicate, ◌-◌, ◌∷◌, []};
ghost use Rattle.exec_code.specs.Instructions.{instruction_of};
ghost use Rattle.executor_gen.specs.Blocks.{sends_of, recvs_of, spots_in, place_at};

use exec_code::Instr;
use fd_base::{ItemNo, Line, Memory};

/// The items that are sent and received at the `in` and at the `out` of a node, ascending.
#[derive(Drop)]
pub struct Operations {
    pub send_in: Vec<ItemNo>,
    pub recv_in: Vec<ItemNo>,
    pub send_out: Vec<ItemNo>,
    pub recv_out: Vec<ItemNo>,
}

fn add_sends(items: &[ItemNo], instrs: &mut Vec<Instr>) -> Result<(), Memory>
    ensures { IfOk result (λ _. map instruction_of instrs.new.items ≡ map instruction_of instrs.old.items ++ sends_of items.now) }
{
    for item in items {
        instrs.push(Instr::Send(*item))?;
    }
    Ok(())
}

fn add_recvs(items: &[ItemNo], instrs: &mut Vec<Instr>) -> Result<(), Memory>
    ensures { IfOk result (λ _. map instruction_of instrs.new.items ≡ map instruction_of instrs.old.items ++ recvs_of items.now) }
{
    for item in items {
        instrs.push(Instr::Recv(*item))?;
    }
    Ok(())
}

/// Adds the operations at the `in` of a node.
pub fn add_ins(operations: &[Operations], n: u16, instrs: &mut Vec<Instr>) -> Result<(), Memory>
    ensures { IfOk result (λ _. map instruction_of instrs.new.items ≡ map instruction_of instrs.old.items ++ (spots_in operations.now).ins n) }
{
    match operations.get(n as usize) {
        Some(o) => {
            add_sends(o.send_in.as_slice(), instrs)?;
            add_recvs(o.recv_in.as_slice(), instrs)?;
            Ok(())
        }
        None => Ok(()),
    }
}

/// Adds the operations at the `out` of a node.
pub fn add_outs(operations: &[Operations], n: u16, instrs: &mut Vec<Instr>) -> Result<(), Memory>
    ensures { IfOk result (λ _. map instruction_of instrs.new.items ≡ map instruction_of instrs.old.items ++ (spots_in operations.now).outs n) }
{
    match operations.get(n as usize) {
        Some(o) => {
            add_sends(o.send_out.as_slice(), instrs)?;
            add_recvs(o.recv_out.as_slice(), instrs)?;
            Ok(())
        }
        None => Ok(()),
    }
}

/// How many operations there are at the `in` of a node.
pub fn count_ins(operations: &[Operations], n: u16) -> u32
    requires { (k : ℕ) → length ((spots_in operations.now).ins k) ≤ 1024 }
    ensures { result ≡ length ((spots_in operations.now).ins n) }
{
    match operations.get(n as usize) {
        Some(o) => {
            let sends = o.send_in.len();
            let recvs = o.recv_in.len();
            (sends + recvs) as u32
        }
        None => 0,
    }
}

/// How many operations there are at the `out` of a node.
pub fn count_outs(operations: &[Operations], n: u16) -> u32
    requires { (k : ℕ) → length ((spots_in operations.now).outs k) ≤ 1024 }
    ensures { result ≡ length ((spots_in operations.now).outs n) }
{
    match operations.get(n as usize) {
        Some(o) => {
            let sends = o.send_out.len();
            let recvs = o.recv_out.len();
            (sends + recvs) as u32
        }
        None => 0,
    }
}

/// The position of the block of a node.
pub fn place_of(places: &[u32], n: u16) -> u32
    ensures { result ≡ place_at places.now n }
{
    match places.get(n as usize) {
        Some(place) => *place,
        None => 0,
    }
}

/// How many instructions there are.
pub fn count(instrs: &Vec<Instr>) -> usize
    ensures { result ≡ length instrs.now.items }
{
    instrs.len()
}

/// Adds an instruction.
pub fn add(instr: Instr, instrs: &mut Vec<Instr>) -> Result<(), Memory>
    ensures { IfOk result (λ _. map instruction_of instrs.new.items ≡ map instruction_of instrs.old.items ++ instruction_of instr ∷ []) }
{
    instrs.push(instr)?;
    Ok(())
}

/// Adds so many times the same line.
pub fn add_lines(count: usize, line: Line, lines: &mut Vec<Line>) -> Result<(), Memory>
    ensures { IfOk result (λ _. lines.new.items ≡ lines.old.items ++ replicate count line) }
{
    for _ in 0..count {
        lines.push(line)?;
    }
    Ok(())
}

/// Adds the line of each instruction from a number on.
pub fn close(
    start: usize,
    line: Line,
    instrs: &Vec<Instr>,
    lines: &mut Vec<Line>,
) -> Result<(), Memory>
    requires { start ≤ length instrs.now.items }
    ensures { IfOk result (λ _. lines.new.items ≡ lines.old.items ++ replicate (length instrs.now.items - start) line) }
{
    let now = count(instrs);
    add_lines(now - start, line, lines)
}
