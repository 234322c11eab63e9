ghost use Rattle.std.specs.Prelude.{◌≡◌, ◌≤◌, true, length};
ghost use Rattle.limits.specs.Gaps.{eight_gaps};
ghost use Rattle.limits.specs.Selection.{Selection, max_pairs};
ghost use Rattle.plan.specs.Held.{standing};
ghost use Rattle.plan.specs.Queries.{served};
ghost use Rattle.planner.specs.Asked.{refusal};
ghost use Rattle.planner.specs.Setting.{pairs, name_links, if_any, row_questions, setting_questions};
ghost use Rattle.planner.specs.SettingFault.{told};

use crate::first_failing::first_failing;
use crate::row::Row;
use crate::setting_fault::SettingFault;
use arrayvec::ArrayVec;
use limits::{Limit, MAX_PAIRS, Pair, breach_of_pairs};
use plan::Plan;

/// Checks a setting made elsewhere under any limit. It is accepted exactly when every question is answered yes.
pub fn check_setting<L: Limit>(plan: &Plan, limit: &L, rows: &[Row]) -> Result<(), SettingFault>
    ensures { told result ≡ refusal (setting_questions eight_gaps (L.breach limit.now) (standing plan.now) rows.now) }
{
    if let Some(link) = plan.first_without_flow() {
        return Err(SettingFault::LinkWithoutFlow { link });
    }
    if !name_links(plan.links(), rows) {
        return Err(SettingFault::RowsNotTheLinks);
    }
    check_rows(plan, limit, rows)
}

/// Asks what comes after the names: the gaps, the MTUs, the messages and the limit.
fn check_rows<L: Limit>(plan: &Plan, limit: &L, rows: &[Row]) -> Result<(), SettingFault>
    requires { name_links (standing plan.now).links rows.now ≡ true }
    ensures { told result ≡ refusal (row_questions eight_gaps (L.breach limit.now) (standing plan.now) rows.now) }
{
    if let Some(row) = first_failing(rows, |row| row.pair.has_lawful_gap()) {
        return Err(SettingFault::GapUnlawful { row });
    }
    if let Some(row) = first_failing(rows, |row| row.pair.has_lawful_mtu()) {
        return Err(SettingFault::MtuUnlawful { row });
    }
    if let Some(row) = first_failing(rows, |row| is_row_served(plan, row)) {
        return Err(SettingFault::MessagesUnserved { row });
    }
    if let Some(breach) = breach_of_rows(limit, rows) {
        return Err(SettingFault::NotWithin { breach });
    }
    Ok(())
}

/// Does the pair of the row serve the link of the row?
fn is_row_served(plan: &Plan, row: &Row) -> bool
    ensures { result ≡ served eight_gaps (standing plan.now) row.now.link row.now.pair }
{
    plan.is_served(row.link, row.pair)
}

/// Are the rows as many as the links, and do they name them in their order?
fn name_links(links: &[u16], rows: &[Row]) -> bool
    ensures { result ≡ name_links links.now rows.now }
{
    links.len() == rows.len() && links.iter().zip(rows).all(|(link, row)| row.link == *link)
}

/// The breach of the pairs of the rows, if there is one.
#[tactic(auto, using(limits::proofs::Judged::judged_selection))]
fn breach_of_rows<L: Limit>(limit: &L, rows: &[Row]) -> Option<u32>
    requires { Selection (pairs rows.now) }
    ensures { result ≡ if_any (L.breach limit.now (pairs rows.now)) }
{
    breach_of_pairs(limit, &pairs_of(rows)).filter(|breach| *breach != 0)
}

/// The pairs of the rows.
fn pairs_of(rows: &[Row]) -> ArrayVec<Pair, MAX_PAIRS>
    requires { length rows.now ≤ max_pairs }
    ensures { result.items ≡ pairs rows.now }
{
    let mut pairs = ArrayVec::new();
    for row in rows {
        pairs.push(row.pair);
    }
    pairs
}
