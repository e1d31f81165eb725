//! A session under a lock that workers share: each takes quanta of its own harts in turn, until none of them can take another.
#![tactic(auto)]

mod kinds;
mod laws;
mod live;
mod lock;
mod name;
mod recorded;
mod seat;
mod shared;
mod steps;
mod team;
mod view;
mod word;
mod worker;

pub use laws::some_shared;
pub use live::run_live;
pub use lock::LockedSession;
pub use name::RunName;
pub use recorded::{LiveCourse, record_live};
pub use seat::Seat;
pub use shared::Shared;
pub use team::Team;
pub use view::Receipt;
pub use word::{NamedWord, Word};
