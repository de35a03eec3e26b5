//! The writes since the last sync of a device in memory, and what they say of the bytes.

ghost use Rattle.std.specs.Prelude.{◌≡◌, ◌++◌, [], ◌∷◌, ◌+◌, ◌≤◌, IsTrue, length, OnOk, OnErr, IfOk};
ghost use Rattle.device.specs.Disk.{put};
ghost use Rattle.device.specs.Record.{are_inside, Write, written_over, torn, torn_over};
ghost use Rattle.device.specs.Past.{writes_of};

use std::alloc::{AllocError, Global};

/// Bytes that were written, and where.
#[derive(Drop)]
pub struct Piece {
    at: u64,
    bytes: Vec<u8>,
}

/// Notes a write and does it. Without memory for the note nothing is done.
pub(crate) fn write_noted(
    alloc: Global,
    since: &mut Vec<Piece>,
    bytes: &mut Vec<u8>,
    at: u64,
    piece: &[u8],
) -> Result<(), AllocError>
    requires { at + length piece.now ≤ length bytes.old.items }
    ensures noted { OnOk result (writes_of since.new.items
        ≡ writes_of since.old.items ++ Write at piece.now ∷ []) }
    ensures bytes { OnOk result (bytes.new.items ≡ put bytes.old.items at piece.now) }
    ensures since_kept { OnErr result (since.new.items ≡ since.old.items) }
    ensures bytes_kept { OnErr result (bytes.new.items ≡ bytes.old.items) }
{
    let noted = piece.to_vec(alloc)?;
    since.push(Piece { at, bytes: noted })?;
    lay(bytes, at, piece);
    Ok(())
}

/// Puts the piece at its place.
fn lay(bytes: &mut [u8], at: u64, piece: &[u8])
    requires { at + length piece.now ≤ length bytes.old }
    ensures { bytes.new ≡ put bytes.old at piece.now }
{
    let at = at as usize;
    bytes[at..at + piece.len()].copy_from_slice(piece);
}

/// Puts the first half of the piece at its place, and A5 after it.
fn tear(bytes: &mut [u8], at: u64, piece: &[u8])
    requires { at + length piece.now ≤ length bytes.old }
    ensures { bytes.new ≡ put bytes.old at (torn piece.now) }
{
    let half = piece.len() / 2;
    let at = at as usize;
    let place = &mut bytes[at..at + piece.len()];
    place[..half].copy_from_slice(&piece[..half]);
    place[half..].fill(0xa5);
}

/// Does the writes since the last sync on the bytes that were there then, and forgets them.
pub(crate) fn settle(firm: &mut Vec<u8>, since: &mut Vec<Piece>)
    requires { IsTrue (are_inside (length firm.old.items) (writes_of since.old.items)) }
    ensures firm { firm.new.items ≡ written_over firm.old.items (writes_of since.old.items) }
    ensures since { since.new.items ≡ [] }
{
    write_over(firm, since);
    since.clear();
}

/// Does the writes again.
fn write_over(bytes: &mut [u8], pieces: &[Piece])
    requires { IsTrue (are_inside (length bytes.old) (writes_of pieces.now)) }
    ensures { bytes.new ≡ written_over bytes.old (writes_of pieces.now) }
{
    let mut rest = pieces;
    while let [piece, later @ ..] = rest {
        lay(bytes, piece.at, &piece.bytes);
        rest = later;
    }
}

/// Does the writes again, each torn.
fn tear_over(bytes: &mut [u8], pieces: &[Piece])
    requires { IsTrue (are_inside (length bytes.old) (writes_of pieces.now)) }
    ensures { bytes.new ≡ torn_over bytes.old (writes_of pieces.now) }
{
    let mut rest = pieces;
    while let [piece, later @ ..] = rest {
        tear(bytes, piece.at, &piece.bytes);
        rest = later;
    }
}

/// The bytes with each of the writes torn.
pub(crate) fn torn_image(alloc: Global, firm: &[u8], since: &[Piece]) -> Result<Vec<u8>, AllocError>
    requires { IsTrue (are_inside (length firm.now) (writes_of since.now)) }
    ensures { IfOk result (λ image. image.items ≡ torn_over firm.now (writes_of since.now)) }
{
    let mut image = firm.to_vec(alloc)?;
    tear_over(&mut image, since);
    Ok(image)
}
