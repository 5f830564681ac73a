//! A graph, read from the words of a line.
ghost use Rattle.std.specs.Prelude.{◌<◌};
ghost use Rattle.cluster_msgs.specs.Shape.{key_count};

use crate::page::Page;
use crate::words::{Fault, Words};
use cluster_msgs::{GraphRow, GraphShape, RowsError, Sequence};

// The row of a word `work:bytes:dependencies`.
fn row_of(words: &mut Words<'_>, word: &str) -> GraphRow {
    let (work, rest) = word.split_once(':').unwrap_or((word, ""));
    let (bytes, deps) = rest.split_once(':').unwrap_or((rest, "-"));
    GraphRow {
        work: words.number_of(work),
        nbytes: words.number_of(bytes),
        deps: words.keys_of(deps),
    }
}

fn read_rows(words: &mut Words<'_>) -> Sequence<GraphRow> {
    let mut rows = Sequence::new(words.alloc());
    for _ in 0..=32768 {
        match words.word() {
            "" => break,
            word => {
                let row = row_of(words, word);
                words.note(rows.push(row));
            }
        }
    }
    rows
}

/// The graph of the words that are left: a word a key, `work:bytes` or `work:bytes:dependencies`. None where one of these
/// words, or of those before, is another than it should be.
pub fn read_graph(words: &mut Words<'_>) -> Result<GraphShape, Fault> {
    let rows = read_rows(words);
    if let Some(fault) = words.fault() {
        return Err(fault);
    }
    match GraphShape::from_rows(words.alloc(), rows.into_vec()) {
        Ok(shape) => Ok(shape),
        Err(RowsError::Unfit { key }) => Err(Fault::Unfit { key }),
        Err(RowsError::OutOfMemory) => Err(Fault::OutOfMemory),
    }
}

fn print_key(page: &mut Page, shape: &GraphShape, key: u32)
    requires { key < key_count shape.now }
{
    page.numbers("  key", &[key as u64, shape.work(key), shape.nbytes(key)]);
    page.keys(" on", shape.deps(key));
    page.put("\n");
}

fn print_graph(page: &mut Page, shape: &GraphShape) {
    page.item("  ", shape.keys());
    page.item(" keys, ", shape.edges());
    page.put(" edges\n");
    for key in 0..shape.keys() {
        print_key(page, shape, key);
    }
}

/// Prints what the graph of a story's first line tells: of each key its work, its bytes and its dependencies.
pub fn play(page: &mut Page, words: &mut Words<'_>) {
    match read_graph(words) {
        Ok(shape) => print_graph(page, &shape),
        Err(fault) => page.fault(fault),
    }
}
