ghost use Rattle.mt_reader.specs.Taken.{TakesExactly};
ghost use Rattle.mt_adminlang.specs.Descent.{shape_of, chunk_of, more_chunks_of, chunks_of, conv_of, fold_of};

use crate::names::names;
use mt_lexer::Symbol;
use mt_list::List;
use mt_reader::{Production, ReadFault, Reader, separated};
use mt_tree::{ChunkText, FoldText};
use std::alloc::Global;

/// Takes a fold.
#[tactic(auto, unfolding(crate::specs::Descent::fold_of))]
pub(crate) fn fold(alloc: Global, reader: &mut Reader<'_>) -> Result<FoldText, ReadFault>
    ensures { TakesExactly result (λ fold. (fold, reader.new)) (fold_of reader.old) }
{
    if reader.takes_word(b"conv") {
        return with_conv(alloc, reader);
    }
    let chunks = chunks(alloc, reader)?;
    Ok(FoldText {
        conv: List::new(alloc),
        chunks,
    })
}

/// Takes what stands behind CONV.
#[tactic(auto, unfolding(crate::specs::Descent::conv_of))]
fn with_conv(alloc: Global, reader: &mut Reader<'_>) -> Result<FoldText, ReadFault>
    ensures { TakesExactly result (λ fold. (fold, reader.new)) (conv_of reader.old) }
{
    let conv = names(alloc, reader)?;
    let chunks = more_chunks(alloc, reader)?;
    Ok(FoldText { conv, chunks })
}

/// Takes chunks behind a comma, if a comma comes next.
#[tactic(auto, unfolding(crate::specs::Descent::more_chunks_of))]
fn more_chunks(alloc: Global, reader: &mut Reader<'_>) -> Result<List<ChunkText>, ReadFault>
    ensures { TakesExactly result (λ chunks. (chunks, reader.new)) (more_chunks_of reader.old) }
{
    if !reader.takes_symbol(Symbol::Comma) {
        return Ok(List::new(alloc));
    }
    chunks(alloc, reader)
}

/// Takes chunks with commas between.
#[tactic(auto, unfolding(crate::specs::Descent::chunks_of))]
fn chunks(alloc: Global, reader: &mut Reader<'_>) -> Result<List<ChunkText>, ReadFault>
    ensures { TakesExactly result (λ chunks. (chunks, reader.new)) (chunks_of reader.old) }
{
    match separated::<ChunkForm>(alloc, reader)? {
        Some(chunks) => Ok(chunks),
        None => unreachable!(),
    }
}

/// A chunk, as an item of a list.
enum ChunkForm {}

impl Production for ChunkForm {
    ghost use Rattle.mt_adminlang.specs.Descent.{chunk_of};

    type Tree = ChunkText;

    ghost read = { chunk_of };

    ghost is_inside = { λ _. Unit {0} };

    fn take(alloc: Global, reader: &mut Reader<'_>) -> Result<Option<ChunkText>, ReadFault> {
        Ok(Some(chunk(alloc, reader)?))
    }
}

/// Takes a chunk.
#[tactic(auto, unfolding(crate::specs::Descent::chunk_of))]
fn chunk(alloc: Global, reader: &mut Reader<'_>) -> Result<ChunkText, ReadFault>
    ensures { TakesExactly result (λ chunk. (chunk, reader.new)) (chunk_of reader.old) }
{
    let shape = shape(reader)?;
    let columns = names(alloc, reader)?;
    Ok(ChunkText { shape, columns })
}

/// Takes the word of a shape.
#[tactic(auto, unfolding(crate::specs::Descent::shape_of))]
fn shape(reader: &mut Reader<'_>) -> Result<u8, ReadFault>
    ensures { TakesExactly result (λ shape. (shape, reader.new)) (shape_of reader.old) }
{
    if reader.takes_word(b"c1") {
        return Ok(1);
    }
    if reader.takes_word(b"c2") {
        return Ok(2);
    }
    if reader.takes_word(b"c3") {
        return Ok(3);
    }
    if reader.takes_word(b"c4") {
        return Ok(4);
    }
    if reader.takes_word(b"c5") {
        return Ok(5);
    }
    reader.word(b"c6")?;
    Ok(6)
}
