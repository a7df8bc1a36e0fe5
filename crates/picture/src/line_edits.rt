//! Inserting, deleting and exchanging rows and columns in a list of cells, row after row.

ghost use Rattle.std.specs.Prelude.{◌≡◌, ◌+◌, ◌*◌, ◌<◌, ◌≤◌, ◌++◌, length, take, drop, insert, replicate, OnOk, OnErr, vec_len};
ghost use Rattle.std.specs.List.{concat};
ghost use Rattle.picture.specs.declared.line_id.Axis.TheVariants.{Down};
ghost use Rattle.picture.specs.Picture.{AreCells, part, with_part};
ghost use Rattle.picture.specs.Rows.{rows_of, with_line, without_line, lines_swapped};

use crate::picture::MAX_SIDE;
use std::alloc::AllocError;

// How many cells a row has at most.
const MOST_CELLS: usize = MAX_SIDE as usize;

/// Inserts a row of background at a place. After an error the cells are as before.
pub(crate) fn insert_row(cells: &mut Vec<u8>, width: usize, at: usize) -> Result<(), AllocError>
    requires place { at * width ≤ vec_len cells.old }
    requires fits { vec_len cells.old + width ≤ 65536 }
    ensures ok { OnOk result (cells.new.items ≡ take (at * width) cells.old.items
        ++ (replicate width 0 ++ drop (at * width) cells.old.items)) }
    ensures err { OnErr result (cells.new.items ≡ cells.old.items) }
{
    cells.resize(cells.len() + width, 0)?;
    cells[at * width..].rotate_right(width);
    Ok(())
}

/// Inserts a column of background at a place. After an error the cells are as before.
pub(crate) fn insert_column(
    cells: &mut Vec<u8>,
    height: usize,
    width: usize,
    at: usize,
) -> Result<(), AllocError>
    requires cells { AreCells height width cells.old.items }
    requires place { at ≤ width }
    ensures ok { OnOk result
        (cells.new.items ≡ concat (with_line Down at (rows_of height width cells.old.items))) }
    ensures err { OnErr result (cells.new.items ≡ cells.old.items) }
{
    let mut wider = Vec::with_capacity(*cells.allocator(), cells.len() + height)?;
    for row in 0..height {
        push_with_gap(&mut wider, &cells[row * width..(row + 1) * width], at)?;
    }
    *cells = wider;
    Ok(())
}

// Appends a row with a cell of background inserted at a place.
fn push_with_gap(cells: &mut Vec<u8>, row: &[u8], at: usize) -> Result<(), AllocError>
    requires { at ≤ length row.now }
    ensures { OnOk result (cells.new.items ≡ cells.old.items ++ insert row.now at 0) }
{
    cells.extend_from_slice(&row[..at])?;
    cells.push(0)?;
    cells.extend_from_slice(&row[at..])?;
    Ok(())
}

/// Removes the row at a place.
pub(crate) fn delete_row(cells: &mut Vec<u8>, width: usize, at: usize)
    requires { at * width + width ≤ vec_len cells.old }
    ensures { cells.new.items
        ≡ take (at * width) cells.old.items ++ drop (at * width + width) cells.old.items }
{
    cells[at * width..].rotate_left(width);
    cells.truncate(cells.len() - width);
}

/// Removes the column at a place.
pub(crate) fn delete_column(cells: &mut Vec<u8>, height: usize, width: usize, at: usize)
    requires cells { AreCells height width cells.old.items }
    requires place { at < width }
    ensures { cells.new.items
        ≡ concat (without_line Down at (rows_of height width cells.old.items)) }
{
    for row in 0..height {
        cells.remove(row * (width - 1) + at);
    }
}

/// Exchanges two rows.
pub(crate) fn swap_rows(cells: &mut [u8], width: usize, i: usize, j: usize)
    requires fits { width ≤ MAX_SIDE }
    requires first { i * width + width ≤ length cells.old }
    requires second { j * width + width ≤ length cells.old }
    ensures { cells.new ≡ with_part (with_part cells.old (i * width)
        (part cells.old (j * width) width)) (j * width) (part cells.old (i * width) width) }
{
    let first = row_copy(&cells[i * width..i * width + width]);
    let second = row_copy(&cells[j * width..j * width + width]);
    cells[i * width..i * width + width].copy_from_slice(&second[..width]);
    cells[j * width..j * width + width].copy_from_slice(&first[..width]);
}

// The cells of a row, and zeros after them.
fn row_copy(row: &[u8]) -> [u8; MOST_CELLS]
    requires { length row.now ≤ MAX_SIDE }
    ensures { take (length row.now) result ≡ row.now }
{
    let mut copy = [0; MOST_CELLS];
    copy[..row.len()].copy_from_slice(row);
    copy
}

/// Exchanges two columns.
pub(crate) fn swap_columns(cells: &mut [u8], height: usize, width: usize, i: usize, j: usize)
    requires cells { AreCells height width cells.old }
    requires first { i < width }
    requires second { j < width }
    ensures { cells.new ≡ concat (lines_swapped Down i j (rows_of height width cells.old)) }
{
    for row in 0..height {
        cells.swap(row * width + i, row * width + j);
    }
}
