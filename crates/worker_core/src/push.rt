//! Instructions and keys that are appended.
ghost use Rattle.std.specs.Prelude.{◌≡◌, ◌++◌, ◌∷◌, [], List, cond, map, IfOk, OnOk, OnErr};
ghost use Rattle.cluster_msgs.specs.declared.cores.Instruction.{Instruction};
ghost use Rattle.cluster_rules.specs.WorkerStep.{add_message, keys_of};

use cluster_msgs::{Instruction, Instructions, KeyList, Up};
use std::alloc::{AllocError, Global};

/// Appends an instruction, where it is to be.
pub fn push_where(
    made: &mut Instructions,
    is: bool,
    instruction: Instruction,
) -> Result<(), AllocError>
    ensures { OnOk result (made.new ≡ made.old ++ cond is (instruction ∷ []) []) }
{
    if is {
        made.push(instruction)?;
    }
    Ok(())
}

/// Appends a key, where it is to be.
pub fn push_key_where(keys: &mut KeyList, is: bool, key: u32) -> Result<(), AllocError>
    ensures { OnOk result (keys.new ≡ keys.old ++ cond is (key ∷ []) []) }
{
    if is {
        keys.push(key)?;
    }
    Ok(())
}

/// Appends one message that names the keys that are to be counted here, if there are any.
pub fn push_added(made: &mut Instructions, seen: u64, keys: KeyList) -> Result<(), AllocError>
    ensures { OnOk result (made.new ≡ made.old ++ add_message seen keys) }
{
    if !keys.is_empty() {
        made.push(Instruction::Send(Up::AddKeys { seen, keys }))?;
    }
    Ok(())
}

/// The keys of these items.
pub fn keys_of(alloc: Global, items: &[(u32, u64)]) -> Result<KeyList, AllocError>
    ensures { IfOk result (λ keys. keys ≡ keys_of items.now) }
{
    let keys = items.iter().map(|item| item.0).collect(alloc)?;
    Ok(KeyList::from_vec(keys))
}

/// Appends what was made. After want of memory what `out` had still stands at its front.
pub fn append(out: &mut Instructions, made: Instructions) -> Result<(), AllocError>
    ensures ok { OnOk result (out.new ≡ out.old ++ made) }
    ensures err { OnErr result ((front : List Instruction) × (out.new ≡ out.old ++ front)) }
{
    for instruction in made.into_vec() {
        out.push(instruction)?;
    }
    Ok(())
}
