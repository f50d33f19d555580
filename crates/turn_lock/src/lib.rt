//! A fair ticket lock around one value, whose turns are a history.
#![tactic(auto)]

mod law;
mod lock;
mod pass;
mod turns;
mod twin_law;
mod twin_lock;
mod twin_pass;
mod twin_view;
mod twins;
mod view;

pub use lock::{Held, TurnLock};
pub use pass::Pass;
pub use turns::Turns;
pub use twin_lock::{HeldDevice, Ticket, TwinHeld, TwinLock};
pub use twin_pass::TwinPass;
pub use twin_view::{Cell, Counted, More, TwinView};
pub use twins::Twins;
pub use view::{Stage, View};
