ghost use Rattle.std.specs.Prelude.{◌≡◌, [], ◌∷◌, ◌++◌, length, OnOk};

use fb_graph::{NoMemory, Row};
use std::marker::Model;

/// A version of the format of reports, as the first line names it.
#[derive(Clone, Copy)]
pub enum Version {
    /// `fusion-report 1`: no weight is negative, and a row has no base line. Its base is 0.
    One,
    /// `fusion-report 2`: weights have signs, and a row of a correction has a base line.
    Two,
}

/// What a report says.
#[derive(Drop)]
pub struct Report {
    /// The rows, that of shot 0 first.
    pub rows: RowList,
    pub totals: Totals,
}

/// The numbers of a report's last line.
#[derive(Clone, Copy)]
pub struct Totals {
    /// How many rows there are.
    pub rows: u64,
    /// How many rows are of shots without a correction.
    pub odd: u64,
    /// How many units were solved. Nothing judges this number.
    pub units: u64,
    /// How many fusions were done. Nothing judges this number.
    pub fusions: u64,
}

/// Rows, which contracts see as their list.
#[derive(Drop)]
pub struct RowList {
    rows: Vec<Row>,
}

impl Model for RowList {
    ghost use Rattle.std.specs.Prelude.{List};
    ghost use Rattle.fb_graph.specs.declared.parts.Row.{Row};

    ghost Value = { List Row };

    ghost view = { λ l. l.rows.items };
}

impl RowList {
    pub fn from_vec(rows: Vec<Row>) -> RowList
        ensures { result ≡ rows.items }
    {
        RowList { rows }
    }

    pub fn into_vec(self) -> Vec<Row>
        ensures { result.items ≡ self }
    {
        self.rows
    }

    pub fn as_slice(&self) -> &[Row]
        ensures { result.now ≡ self.now }
    {
        self.rows.as_slice()
    }
}
