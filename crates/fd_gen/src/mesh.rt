// The deck of a mesh.
ghost use Rattle.std.specs.Prelude.{◌≡◌, ◌++◌, IfOk, OnOk};
ghost use Rattle.std.specs.List.{range_with_len};
ghost use Rattle.std.specs.List.Sorted.{IsPermutation};
ghost use Rattle.fd_gen.specs.Mesh.{mesh_program, mesh_text, neighbours, number_lines};

use crate::draw::Generator;
use fd_base::{Bytes, Memory};
use std::alloc::Global;

/// A deck of a mesh with its input, made from a number: the program, a value of the map for each node, and a neighbour
/// for each node. Each node is the neighbour of one. The language takes decks of sizes from 1 to 50,000.
pub fn generate_mesh(alloc: Global, size: u32, start: u64) -> Result<Bytes, Memory>
    ensures text { IfOk result (λ text. text ≡ mesh_text size start) }
    ensures nodes { OnOk result (IsPermutation (range_with_len 1 size) (neighbours size start)) }
{
    let mut generator = Generator { state: start };
    let map = generator.draw_map(alloc, size)?;
    let permutation = generator.draw_permutation(alloc, size)?;
    let mut text = program_text(alloc, size)?;
    append_lines(map.as_slice(), &mut text)?;
    append_lines(permutation.as_slice(), &mut text)?;
    Ok(text)
}

// The program for so many nodes.
fn program_text(alloc: Global, size: u32) -> Result<Bytes, Memory>
    ensures { IfOk result (λ text. text ≡ mesh_program size) }
{
    let mut text = Bytes::from_slice(alloc, b"PROGRAM MESH\nPARAMETER (N = ")?;
    text.append_number(u64::from(size))?;
    text.append(BEHIND_SIZE.as_bytes())?;
    Ok(text)
}

// The program behind the size.
const BEHIND_SIZE: &str = ", NT = 50)
INTEGER X(N), Y(N), IA(N), M(N), S
DECOMPOSITION D(N)
ALIGN X WITH D
ALIGN Y WITH D
ALIGN IA WITH D
DO I = 1, N
READ *, M(I)
ENDDO
DISTRIBUTE D(M)
DO I = 1, N
READ *, IA(I)
X(I) = I
ENDDO
DO K = 1, NT
DO I = 1, N
Y(I) = X(IA(I))
ENDDO
DO I = 1, N
X(I) = Y(I)
ENDDO
ENDDO
DO I = 1, N
S = S + X(I)
ENDDO
PRINT *, S
END
";

// Puts one number a line behind the text.
fn append_lines(numbers: &[u64], text: &mut Bytes) -> Result<(), Memory>
    ensures { IfOk result (λ _. text.new ≡ text.old ++ number_lines numbers.now) }
{
    for number in numbers {
        text.append_number(*number)?;
        text.push(b'\n')?;
    }
    Ok(())
}
