//! One cell and one pass, with what a row needs to know of them.
ghost use Rattle.std.specs.Prelude.{◌≡◌, ℕ, ◌≤◌, [], None, Option, IfErr};
ghost use Rattle.turn_cell.specs.Rows.{HasParts, IsClosed, KeepsParts, LosesPart, GivesPart, GainsPart};

use crate::cell::{Pass, TurnCell};
use crate::kept::{Act, Kept};
use cluster_msgs::Label;
use std::sync::Wait;

/// One turn, if it is free; else the act comes back.
pub fn try_turn<S: Kept, L: Label<Block = S::Block>, A: Act<S, L>>(
    cell: &TurnCell<S, L>,
    pass: &mut Pass<S, L>,
    act: A,
) -> Result<A::Out, A>
    requires own { pass.old.seat.table_id ≡ cell.now.table.shared.table_id }
    requires rests { (pass.old.seat.me.1 ≡ []) × (pass.old.seat.me.0.out ≡ None) }
    ensures has { KeepsParts cell.now.table.shared.table_id pass.old.seat pass.new.seat }
    ensures busy { IfErr result (λ a. a ≡ act) }
{
    let Ok(mut turn) = cell.try_enter(pass) else {
        return Err(act);
    };
    let out = act.act(&mut *turn.state);
    cell.leave(pass, turn);
    Ok(out)
}

/// One turn. It may wait.
pub fn turn<R: Wait, S: Kept, L: Label<Block = S::Block>, A: Act<S, L>>(
    rt: &R,
    cell: &TurnCell<S, L>,
    pass: &mut Pass<S, L>,
    act: A,
) -> A::Out
    requires own { pass.old.seat.table_id ≡ cell.now.table.shared.table_id }
    requires rests { (pass.old.seat.me.1 ≡ []) × (pass.old.seat.me.0.out ≡ None) }
    ensures has { KeepsParts cell.now.table.shared.table_id pass.old.seat pass.new.seat }
{
    let mut turn = cell.enter(rt, pass);
    let out = act.act(&mut *turn.state);
    cell.leave(pass, turn);
    out
}

/// One part, as a pass of its own.
pub fn split<S: Kept, L: Label<Block = S::Block>>(
    cell: &TurnCell<S, L>,
    pass: &mut Pass<S, L>,
) -> Pass<S, L>
    requires own { pass.old.seat.table_id ≡ cell.now.table.shared.table_id }
    requires parts { 2 ≤ pass.old.seat.me.0.parts }
    ensures has { LosesPart cell.now.table.shared.table_id pass.old.seat pass.new.seat }
    ensures given { GivesPart cell.now.table.shared.table_id pass.old.seat result.seat }
{
    cell.split(pass)
}

/// Takes a part back.
pub fn join<S: Kept, L: Label<Block = S::Block>>(
    cell: &TurnCell<S, L>,
    pass: &mut Pass<S, L>,
    other: Pass<S, L>,
)
    requires own { pass.old.seat.table_id ≡ cell.now.table.shared.table_id }
    requires other { other.seat.table_id ≡ cell.now.table.shared.table_id }
    requires rests { (other.seat.me.1 ≡ []) × (other.seat.me.0.out ≡ None) }
    ensures has { GainsPart cell.now.table.shared.table_id pass.old.seat other.seat pass.new.seat }
{
    cell.join(pass, other);
}

/// Gives the state back.
pub fn close<S: Kept, L: Label<Block = S::Block>>(cell: TurnCell<S, L>, pass: Pass<S, L>) -> S
    requires own { pass.seat.table_id ≡ cell.table.shared.table_id }
    requires all { pass.seat.me.0.parts ≡ pass.seat.me.0.total }
    requires rests { (pass.seat.me.1 ≡ []) × (pass.seat.me.0.out ≡ None) }
    ensures closed { (start : Option S) (total : ℕ) → HasParts cell.table.shared.table_id start total total pass.seat
        → IsClosed S.entries S.core S.cut S.steps start result }
    ensures fits { S.fits L.facts result }
{
    cell.close(pass)
}
