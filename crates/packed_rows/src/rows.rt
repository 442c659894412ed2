// Packed rows.
ghost use Rattle.std.specs.Prelude.{◌≡◌, ◌<◌, ◌^◌, length, OnOk, OnErr, All, FitsSigned, [], ◌∷◌, ◌++◌};
ghost use Rattle.std.specs.Int.{w128};
ghost use Rattle.packed_rows.specs.Packing.{packed_rows};

use crate::packing::push_numbers;
use std::alloc::{AllocError, Global};
use std::marker::Model;

/// Rows of whole numbers, all of one length, in about as many bytes as their digits: a number of at most 63 in absolute value takes one byte, of at most
/// 8191 two. Seen as a matrix.
#[derive(Drop)]
pub struct PackedRows {
    cols: usize,
    rows: usize,
    bytes: Vec<u8>,
}

impl Model for PackedRows {
    ghost use Rattle.mat_int.specs.Matrix.{Matrix};

    ghost Value = { Matrix };

    ghost use Rattle.packed_rows.specs.Packed.{held_rows, IsPacked};

    ghost view = { λ p. record { cols = p.cols; rows = held_rows p } };

    ghost invariant = { IsPacked };
}

impl PackedRows {
    /// No row yet, of `cols` numbers each.
    pub fn new(alloc: Global, cols: usize) -> PackedRows
        ensures { result ≡ record { cols = cols; rows = [] } }
    {
        PackedRows {
            cols,
            rows: 0,
            bytes: Vec::new(alloc),
        }
    }

    /// The number of rows.
    pub fn rows(&self) -> usize
        ensures count { result ≡ length self.now.rows }
        ensures even { All (λ row. length row ≡ self.now.cols) self.now.rows }
        ensures word { All (All (FitsSigned w128)) self.now.rows }
    {
        self.rows
    }

    /// The number of columns.
    pub fn cols(&self) -> usize
        ensures { result ≡ self.now.cols }
    {
        self.cols
    }

    /// One row more, at the end. Where memory runs out, none.
    pub fn push_row(&mut self, row: &[i128]) -> Result<(), AllocError>
        requires long { length row.now ≡ self.old.cols }
        requires few { length self.old.rows < 2 ^ 32 }
        ensures ok { OnOk result (self.new ≡ record self.old { rows = self.old.rows ++ row.now ∷ [] }) }
        ensures err { OnErr result (self.new ≡ self.old) }
    {
        let before = self.bytes.len();
        if push_numbers(&mut self.bytes, row).is_err() {
            self.bytes.truncate(before);
            return Err(AllocError);
        }
        self.rows += 1;
        Ok(())
    }

    // The rows one after the other.
    pub(crate) fn bytes(&self) -> &[u8]
        ensures { result.now ≡ packed_rows self.now.rows }
    {
        &self.bytes
    }
}
