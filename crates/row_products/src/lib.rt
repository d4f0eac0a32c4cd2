// The products w * l * l' of the rows on one basis, read off the certificate's bytes by their offsets, summed by their
// indices in the table of sums of row_outer, which holds one of their three parts at a time, all of products of 16 bits.
#![tactic(auto)]

ghost use Rattle.std.specs.Prelude.{◌≡◌, ◌≤◌, length};
ghost use Rattle.flat.specs.TermArrays.{terms_in};
ghost use Rattle.certificate_rows.specs.Offsets.{row_at, rows_by, RowStands};
ghost use Rattle.row_outer.specs.Frame.{Empty, Below};
ghost use Rattle.row_outer.specs.Outer.{gathered_most, HoldsEntries};
ghost use Rattle.row_digits.specs.declared.Part.TheVariants as P;
ghost use Rattle.row_products.specs.Gather.{RowsFor, LowRow, RowHeld, PartAdded, RowAdded, Gathered};

use certificate_rows::Rows;
use row_digits::Part;

// The entries of the row between two offsets, put into arrays; how many they are.
fn read_row(
    s: &[u8],
    from: usize,
    to: usize,
    indices: &mut [u8; 64],
    factors: &mut [i32; 64],
) -> usize
    requires { RowStands s.now from to
        × (length (row_at s.now from to).entries ≤ 64)
        × (length indices.old ≡ 64)
        × (length factors.old ≡ 64) }
    ensures { HoldsEntries (row_at s.now from to).entries indices.new factors.new result }
{
    let mut n = 0;
    let mut x = from + 4;
    // By offset: an entry's command says how far the next one is.
    while x < to {
        indices[n] = certificate_rows::index_at(s, x);
        factors[n] = certificate_rows::factor_at(s, x);
        n += 1;
        x = certificate_rows::after_entry(s, x);
    }
    n
}

// Adds the products of the lower digits of a row; whether a factor is wide.
fn add_low(g: &mut [i64], indices: &[u8; 64], factors: &mut [i32; 64], count: usize, w: i64) -> bool
    requires { RowHeld indices.now factors.old count w g.old }
    ensures { PartAdded P.Low w (terms_in count indices.now factors.old) g.old g.new
        result }
{
    let wide = row_digits::keep_low_digits(factors, count);
    row_outer::add_outer(g, indices, factors, factors, count, w);
    wide
}

// Adds the products of the lower digits with the upper ones, and of the upper with the lower; whether a factor is wide.
fn add_cross(
    g: &mut [i64],
    indices: &[u8; 64],
    factors: &mut [i32; 64],
    count: usize,
    w: i64,
) -> bool
    requires { RowHeld indices.now factors.old count w g.old }
    ensures { PartAdded P.Cross w (terms_in count indices.now factors.old) g.old
        g.new result }
{
    let mut highs: [i32; 64] = [0; 64];
    if !row_digits::high_digits(factors, &mut highs, count) {
        return false;
    }
    row_digits::keep_low_digits(factors, count);
    row_outer::add_outer(g, indices, factors, &highs, count, w);
    row_outer::add_outer(g, indices, &highs, factors, count, w);
    true
}

// Adds the products of the upper digits; whether a factor is wide.
fn add_high(g: &mut [i64], indices: &[u8; 64], factors: &[i32; 64], count: usize, w: i64) -> bool
    requires { RowHeld indices.now factors.now count w g.old }
    ensures { PartAdded P.High w (terms_in count indices.now factors.now) g.old
        g.new result }
{
    let mut highs: [i32; 64] = [0; 64];
    if !row_digits::high_digits(factors, &mut highs, count) {
        return false;
    }
    row_outer::add_outer(g, indices, &highs, &highs, count, w);
    true
}

// Adds one part of the products of the row between two offsets; whether a factor is wide.
fn add_row(g: &mut [i64], s: &[u8], from: usize, to: usize, part: Part) -> bool
    requires { Below gathered_most g.old × LowRow s.now from to (length g.old) }
    ensures { RowAdded part (row_at s.now from to) g.old g.new result }
{
    let mut indices: [u8; 64] = [0; 64];
    let mut factors: [i32; 64] = [0; 64];
    let n = read_row(s, from, to, &mut indices, &mut factors);
    let w = certificate_rows::weight_at(s, from);
    match part {
        Part::Low => add_low(g, &indices, &mut factors, n, w),
        Part::Cross => add_cross(g, &indices, &mut factors, n, w),
        Part::High => add_high(g, &indices, &factors, n, w),
    }
}

// Adds one part of the products of the rows on basis j to the table of sums, which is empty. Other rows are stepped
// over. Whether a row on it has a wide factor, and None where no row is on it.
pub fn add_basis_rows(g: &mut [i64], rows: Rows, j: usize, part: Part) -> Option<bool>
    requires { Empty g.old
        × RowsFor rows.stream.now rows.starts.now rows.count j (length g.old)
        × (length rows.starts.now ≡ 129) }
    ensures { Gathered part
        (rows_by rows.entry.stream.now rows.entry.starts.now rows.entry.count)
        j g.old g.new result }
{
    let mut found = None;
    for r in 0..rows.count {
        let at = rows.starts[r];
        if certificate_rows::basis_at(rows.stream, at) == j {
            let wide = add_row(g, rows.stream, at, rows.starts[r + 1], part);
            found = Some(wide | found.unwrap_or(false));
        }
    }
    found
}
