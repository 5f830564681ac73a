//! Whether the inputs of an expression are there.
ghost use Rattle.std.specs.Prelude.{◌≡◌, ◌<◌, ◌≤◌, ◌^◌, IsTrue, List, length, true};
ghost use Rattle.io_edge.specs.Content.{Content};
ghost use Rattle.array_expr.specs.Elem.{is_input, next_input};
ghost use Rattle.plain_eval.specs.Eval.{HaveBlocks, block_at};
ghost use Rattle.plain_block.specs.Files.{HaveFiles, head_at};

use array_expr::{Node, Op};
use nd_shape::Block;
use npy_codec::Head;

fn is_input(op: &Op) -> bool
    ensures { result ≡ is_input op.now }
{
    match op {
        Op::Input { .. } => true,
        _ => false,
    }
}

fn next_input(op: &Op, input: usize) -> usize
    requires { input < 2 ^ 63 }
    ensures { result ≡ next_input op.now input }
{
    if is_input(op) { input + 1 } else { input }
}

// Whether a node is no input, or the one with this number, which has a block of its shape.
fn has_block(node: &Node, input: usize, blocks: &[Block]) -> bool
    ensures there { IsTrue result → is_input node.now.op ≡ true → input < length blocks.now }
    ensures shape { IsTrue result → is_input node.now.op ≡ true → (block_at blocks.now input).shape ≡ node.now.shape }
{
    if !is_input(&node.op) {
        return true;
    }
    if input >= blocks.len() {
        return false;
    }
    blocks[input].shape().dims() == node.shape.dims()
}

/// Whether each input among the first so many nodes has a block of its shape.
pub fn have_blocks(nodes: &[Node], count: usize, blocks: &[Block]) -> bool
    requires { count ≤ length nodes.now }
    ensures { IsTrue result → HaveBlocks nodes.now count blocks.now }
{
    let mut input = 0;
    for k in 0..count {
        let node = &nodes[k];
        if !has_block(node, input, blocks) {
            return false;
        }
        input = next_input(&node.op, input);
    }
    true
}

// Whether a node is no input, or the one with this number, which has a file and a head of its shape for `<i8`.
fn has_file(node: &Node, input: usize, files: usize, heads: &[Head]) -> bool
    ensures file { IsTrue result → is_input node.now.op ≡ true → input < files }
    ensures head { IsTrue result → is_input node.now.op ≡ true → input < length heads.now }
    ensures shape { IsTrue result → is_input node.now.op ≡ true → (head_at heads.now input).shape ≡ node.now.shape }
    ensures near { IsTrue result → is_input node.now.op ≡ true → (head_at heads.now input).data_at ≤ 2 ^ 21 }
    ensures width { IsTrue result → is_input node.now.op ≡ true → (head_at heads.now input).width ≡ 8 }
{
    if !is_input(&node.op) {
        return true;
    }
    if input >= files || input >= heads.len() {
        return false;
    }
    let head = &heads[input];
    head.shape.dims() == node.shape.dims() && head.data_at <= 128 && head.width == 8
}

/// Whether each input among the first so many nodes has a file, of so many, and a head of its shape.
pub fn have_files(nodes: &[Node], count: usize, files: usize, heads: &[Head]) -> bool
    requires { count ≤ length nodes.now }
    ensures { IsTrue result → (held : List Content) → length held ≡ files → HaveFiles nodes.now count held heads.now }
{
    let mut input = 0;
    for k in 0..count {
        let node = &nodes[k];
        if !has_file(node, input, files, heads) {
            return false;
        }
        input = next_input(&node.op, input);
    }
    true
}
