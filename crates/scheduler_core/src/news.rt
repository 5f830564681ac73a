//! What is new of the keys.
ghost use Rattle.std.specs.Prelude.{◌≡◌, ◌<◌, ◌++◌, [], ℕ, true, Option, None, Some, not, ◌&&◌, cond, IfOk, OnOk};
ghost use Rattle.std.specs.List.{cons_option};
ghost use Rattle.std.specs.Option.{option_map};
ghost use Rattle.cluster_rules.specs.Sched.{keys, held, blame};
ghost use Rattle.key_sets.specs.Sets.{has};
ghost use Rattle.task_table.specs.Tasks.{facts};
ghost use Rattle.scheduler_core.specs.News.{news_of, all_news, was_held, was_erred};

use crate::walk::next_touched;
use cluster_msgs::Sequence;
use cluster_rules::Facts;
use key_sets::KeySet;
use std::alloc::{AllocError, Global};
use task_table::TaskTable;

/// What is new of a key, whoever wants it.
#[derive(Clone, Copy)]
pub enum News {
    /// It is erred now.
    Erred { blame: u32 },
    /// Some worker holds it now.
    Held,
    /// No worker holds it any more.
    Lost,
}

/// The keys of which something is new, ascending: all of them were touched. `asked` are the keys of the event's own want,
/// which count as neither held nor erred before.
///
/// # Errors
/// Where no memory is left.
pub fn all_news(
    alloc: Global,
    table: &TaskTable,
    asked: &KeySet,
) -> Result<Sequence<(u32, News)>, AllocError>
    requires { (k : ℕ) → has asked.now k ≡ true → has table.now.touched k ≡ true }
    ensures { IfOk result (λ all. all ≡ all_news (facts table.now) (was_held table.now asked.now) (was_erred table.now asked.now)) }
{
    table.sound();
    table.remembered();
    let mut all = Sequence::new(alloc);
    let mut from = 0;
    while let Some(key) = next_touched(table, from) {
        push_news(&mut all, key, news_at(table, asked, key))?;
        from = key + 1;
    }
    Ok(all)
}

/// Appends the news, if there are any.
fn push_news(
    all: &mut Sequence<(u32, News)>,
    key: u32,
    news: Option<News>,
) -> Result<(), AllocError>
    ensures { OnOk result (all.new ≡ all.old ++ cons_option (option_map (λ n. (key, n)) news) []) }
{
    if let Some(found) = news {
        all.push((key, found))?;
    }
    Ok(())
}

/// What is new of the key.
fn news_at(table: &TaskTable, asked: &KeySet, key: u32) -> Option<News>
    requires { key < keys (facts table.now) }
    ensures { result ≡ news_of (facts table.now) (was_held table.now asked.now) (was_erred table.now asked.now) key }
{
    table.sound();
    let is_asked = asked.contains(key);
    let blame = new_blame(table.blame(key), table.was_erred(key) & !is_asked);
    let other = new_state(table.held(key), table.was_held(key) & !is_asked);
    blame.or(other)
}

/// The error, where there is one and there was none.
fn new_blame(blame: Option<u32>, was_erred: bool) -> Option<News>
    ensures { result ≡ cond was_erred None (option_map (λ b. News.Erred b) blame) }
{
    match blame {
        Some(blame) if !was_erred => Some(News::Erred { blame }),
        _ => None,
    }
}

/// Whether a key came or went.
fn new_state(is_held: bool, was_held: bool) -> Option<News>
    ensures { result ≡ cond (is_held && not was_held) (Some News.Held) (cond (was_held && not is_held) (Some News.Lost) None) }
{
    if is_held && !was_held {
        Some(News::Held)
    } else if was_held && !is_held {
        Some(News::Lost)
    } else {
        None
    }
}
