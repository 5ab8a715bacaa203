//! The rows of a survey, and how they are written: as text for people, as CSV and as JSON.
#![tactic(auto)]

mod cells;
mod changes;
mod columns;
mod csvs;
mod earlier;
mod grids;
mod jsons;
mod matching;
mod rows;
mod summaries;

pub use cells::{ColumnHead, Grid, RowCell};
pub use changes::{Changes, change_heads, changes_since};
pub use columns::{COLUMNS, Column};
pub use csvs::csv_text;
pub use earlier::EarlierError;
pub use grids::{grid_text, shown, shown_width, widen_heads};
pub use jsons::json_text;
pub use rows::{Counts, Judgement, Row, RowLayout, grid_of, sort};
pub use summaries::Summary;
