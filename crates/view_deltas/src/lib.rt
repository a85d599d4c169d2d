//! The rows of views, kept by the changes of the tables that they read.
#![tactic(auto)]

mod entries;
mod group;
mod group_tally;
mod grouped;
mod inserted;
mod item_tally;
mod joined;
mod joined_side;
mod kept_view;
mod keys;
mod number_tally;
mod place;
mod plain;
mod putting;
mod shown;
mod side;
mod view_run;
mod views;
mod way;

pub use group::Group;
pub use place::Place;
pub use view_run::ViewRun;
pub use views::Views;
