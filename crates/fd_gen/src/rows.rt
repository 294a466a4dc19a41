// Inputs of decks whose drawn numbers were worked apart from the program.
use crate::generate_mesh;
use fd_base::{Bytes, Memory};
use std::alloc::Global;
use std::process::Abort;
use std::test::Fail;

/// The size of a mesh, the number that it is made from, and the numbers of its input.
const ROWS: &str = "1 1 774/1
2 0 807/424/1/2
3 7 278/231/753/1/2/3
5 1 774/153/196/870/34/5/4/2/3/1
4 18446744073709551615 488/343/677/602/4/2/3/1
";

// The last line of the program, and the numbers on a line each.
fn input_of(alloc: Global, numbers: &str) -> Result<Bytes, Memory> {
    let mut input = Bytes::from_slice(alloc, b"END\n")?;
    for number in numbers.split("/") {
        input.append(number.as_bytes())?;
        input.push(b'\n')?;
    }
    Ok(input)
}

fn compare_row(rt: &impl Abort, alloc: Global, row: &str) -> Result<(), Memory> {
    let mut words = row.split_whitespace();
    let size = words.next().unwrap_or("").parse::<u32>().unwrap_or(0);
    let start = words.next().unwrap_or("").parse::<u64>().unwrap_or(0);
    let input = input_of(alloc, words.next().unwrap_or(""))?;
    let text = generate_mesh(alloc, size, start)?;
    assert!(rt; text.as_slice().ends_with(input.as_slice()), "{row}");
    Ok(())
}

#[test]
fn meshes_have_the_numbers_that_were_worked(rt: HostRuntime) -> Result<(), Fail> {
    for row in ROWS.lines() {
        compare_row(&rt, rt.alloc(), row)?;
    }
    Ok(())
}
