// Lists of names as the field engineer writes them: read, arranged and told line by line.
#![tactic(auto)]

mod heading;
pub mod listing;
pub mod name;
pub mod report;
mod text;
