// Rows of bits: a lent dense system with its rules, and the work area in which it is eliminated.
#![tactic(auto)]

mod area;
pub mod fits;
mod system;
pub mod values;
mod view;

pub use area::Area;
pub use system::DenseSystem;
pub use view::View;
