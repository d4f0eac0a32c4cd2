// Refusal 8: whether each row of a certificate that was read keeps to one block, and the place of the first entry that
// does not. The rows are walked by their offsets.
#![tactic(auto)]

ghost use Rattle.std.specs.Prelude.{◌≡◌, ◌+◌, ◌*◌, ◌^◌, ◌<◌, length};
ghost use Rattle.format.specs.Commands.{given};
ghost use Rattle.format.specs.ProblemRules.{Problem};
ghost use Rattle.format.proofs.WithinLimits.{Limits};
ghost use Rattle.joining_rule.specs.Bytes.{block_bytes, block_at};
ghost use Rattle.joining_rule.specs.Joining.{closing};
ghost use Rattle.format.specs.CertificateRules.{Certificate, read_certificate};
ghost use Rattle.certificate_rows.specs.Offsets.{row_at, rows_by, Walkable};
ghost use Rattle.accepting.specs.Judgement.{row_split, split_place};
ghost use Rattle.row_blocks.specs.Places.{SplitTold, RowIndexed};

use certificate_rows::Rows;

// The place of the first entry outside the row's first block, for the row between two offsets.
#[tactic(auto, using(crate::proofs::Splits::searching))]
fn row_split(s: &[u8], from: usize, to: usize, labels: &[u8]) -> Option<usize>
    requires { RowIndexed s.now from to labels.now }
    ensures { let row = row_at s.now from to in SplitTold result (row_split (block_at labels.now row.basis) row.entries) }
{
    let mut x = from + 4;
    if to <= x {
        return None;
    }
    let part = 64 * certificate_rows::basis_at(s, from);
    let first = labels[part + usize::from(certificate_rows::index_at(s, x))];
    // By offset: an entry's command says how far the next one is.
    while x < to {
        if labels[part + usize::from(certificate_rows::index_at(s, x))] != first {
            return Some(x);
        }
        x = certificate_rows::after_entry(s, x);
    }
    None
}

// The place of the first entry of a certificate outside its row's first block. Byte 64j + i of `labels` is the block
// number of index i in basis j.
pub fn split_place(rows: Rows, labels: &[u8]) -> Option<usize>
    requires { Walkable rows.stream.now rows.starts.now rows.count
        × (length rows.starts.now ≡ 129)
        × (length labels.now ≡ 576) }
    ensures { (p : Problem) (c : Certificate) → Limits p → read_certificate p rows.entry.stream.now ≡ given c
        → c.rows ≡ rows_by rows.entry.stream.now rows.entry.starts.now rows.entry.count
        → labels.now ≡ block_bytes (closing p).state.labels → SplitTold result (split_place p c.rows) }
{
    for r in 0..rows.count {
        if let Some(place) = row_split(rows.stream, rows.starts[r], rows.starts[r + 1], labels) {
            return Some(place);
        }
    }
    None
}
