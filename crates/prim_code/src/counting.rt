//! How many words statements have.

ghost use Rattle.std.specs.Prelude.{◌≡◌, ◌<◌, ◌^◌, ℕ, List, length};
ghost use Rattle.tramp_spec.specs.Statements.{body_of};
ghost use Rattle.prim_code.specs.Counts as counts;

use pn_types::{Act, Cond, Left, Plan, Site, Stmt};

/// How many words an act has.
fn act_words(act: Act) -> u32
    ensures { result ≡ counts.act_words act }
{
    match act {
        Act::Up(_) | Act::Put(_, _) => 4,
        Act::Down(_) => 5,
        Act::Start(_) | Act::Stop(_) => 12,
    }
}

/// How many words a condition puts before the rest of its statement.
pub fn cond_words(cond: &Cond) -> u32
    ensures { result ≡ counts.cond_words cond.now }
{
    match cond.left {
        Left::Counter(_) => 5,
        Left::Argument(_) => 3,
    }
}

/// How many words a statement has.
pub fn stmt_words(stmt: &Stmt) -> u32
    requires { counts.stmt_words stmt.now < 2 ^ 32 }
    ensures { result ≡ counts.stmt_words stmt.now }
{
    let conds: u32 = stmt
        .conds
        .as_slice()
        .iter()
        .map(|cond| cond_words(cond))
        .sum();
    conds + act_words(stmt.act)
}

/// How many words the statements have, whatever the slots of their variables.
pub fn words_of(stmts: &[Stmt]) -> u32
    requires { counts.word_count stmts.now < 2 ^ 32 }
    ensures count { result ≡ counts.word_count stmts.now }
    ensures body { (slots : List ℕ) → length (body_of slots stmts.now) ≡ result }
{
    let mut words = 0;
    for stmt in stmts {
        words += stmt_words(stmt);
    }
    words
}

/// How many words the mini block of a site has: those of its statements, and one jump.
fn site_words(site: &Site) -> u64
    requires { counts.site_words site.now < 2 ^ 32 }
    ensures { result ≡ counts.site_words site.now }
{
    u64::from(words_of(site.stmts.as_slice())) + 1
}

/// The predicted cost of a plan: how many words its mini blocks have. They are fewer than 2^32, as those of each plan of a
/// checked configuration.
pub fn predicted(plan: &Plan) -> u64
    requires { counts.predicted plan.now < 2 ^ 32 }
    ensures { result ≡ counts.predicted plan.now }
{
    let mut words = 0;
    for site in plan.sites.as_slice() {
        words += site_words(site);
    }
    words
}
