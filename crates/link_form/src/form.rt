// The form of a file: whether it is whole, and how much it describes.
ghost use Rattle.std.specs.Prelude.{◌≡◌, ◌≤◌, length, IfErr, OnOk};
ghost use Rattle.link_form.specs.File.{header_bytes, max_bytes, read_file, form_of};
ghost use Rattle.link_form.specs.Forms.{form_told, HeaderTells};

use crate::bytes::read_number;
use crate::kind::Kind;
use crate::rows::{HEADER_BYTES, Rows, WIDTH};
use answers::Refusal;

// The longest file, in bytes.
pub const MAX_BYTES: usize = 8192;

// The version of the form.
pub const VERSION: u64 = 1;

// What a file describes: its kind, n, m and t.
#[derive(Clone, Copy, PartialEq, Debug)]
pub struct Form {
    pub kind: Kind,
    pub n: usize,
    pub m: usize,
    pub t: usize,
}

// The kind that a header tells, if it is whole: the mark LNK, version 1, a known kind.
fn header_kind(bytes: &[u8]) -> Result<Kind, Refusal>
    ensures tells { HeaderTells bytes.now result }
    ensures lengths { OnOk result ((header_bytes ≤ length bytes.now) × (length bytes.now ≤ max_bytes)) }
{
    if bytes.len() < HEADER_BYTES || bytes.len() > MAX_BYTES {
        return Err(Refusal::BadFile);
    }
    if !bytes.starts_with(b"LNK") || read_number(bytes, 3, 2) != VERSION {
        return Err(Refusal::BadFile);
    }
    Kind::try_from(read_number(bytes, 5, 1))
}

// Whether the bytes are a link file, and what it describes.
pub fn read_form(bytes: &[u8]) -> Result<Form, Refusal>
    ensures value { form_told result ≡ form_of (read_file bytes.now) }
    ensures refusal { IfErr result (λ refusal. refusal ≡ Refusal.BadFile) }
{
    let kind = header_kind(bytes)?;
    let n = read_number(bytes, 6, WIDTH) as usize;
    let m = read_number(bytes, 8, WIDTH) as usize;
    let t = Rows::of_file(bytes, kind)
        .listed(m)
        .ok_or(Refusal::BadFile)?;
    Ok(Form { kind, n, m, t })
}
