//! The answers of the policies: where each key would go, or 0, which key would be stolen and which replica dropped.
ghost use Rattle.std.specs.Prelude.{◌≡◌};

use crate::page::Page;
use balance_policy::{next_drop, next_steal};
use cluster_msgs::{GraphShape, Steal};
use cluster_rules::Facts;
use placement::place;

fn print_steal(page: &mut Page, steal: Option<Steal>) {
    match steal {
        Some(steal) => {
            page.item("  steal of ", steal.key);
            page.item(" from ", steal.victim);
            page.item(" to ", steal.thief);
        }
        None => page.put("  no steal"),
    }
}

fn print_drop(page: &mut Page, drop: Option<(u32, u32)>) {
    match drop {
        Some((worker, key)) => {
            page.item("\n  drop of ", key);
            page.item(" at ", worker);
        }
        None => page.put("\n  no drop"),
    }
}

/// Where each key would go, the next steal and the next drop.
pub fn print_choices<F: Facts>(page: &mut Page, facts: &F, shape: &GraphShape)
    requires { shape.now ≡ (F.facts facts.now).setting.shape }
{
    page.put("  places");
    for key in 0..facts.keys() {
        page.item(" ", place(facts, shape, key).unwrap_or(0));
    }
    page.put("\n");
    print_steal(page, next_steal(facts, shape));
    print_drop(page, next_drop(facts));
    page.put("\n");
}
