//! Strings, macros and diversions under their names, with texts in the making and leases (manual,
//! section 7).

ghost use Rattle.std.specs.Prelude.{◌≡◌, ◌≤◌, ◌+◌, ◌-◌, ℕ, [], All, length, option_map, sum_by};
ghost use Rattle.std.specs.Prelude.{IsTrue, ◌↔◌, ◌*◌, IfOk, None};
ghost use Rattle.std.specs.List.{last_or};
ghost use Rattle.roff_store.specs.Chains.{has, share, shares_in, AreSameChunks, IsShared, IsStrand};
ghost use Rattle.roff_store.specs.Named.{entry_of};
ghost use Rattle.roff_store.specs.TextStore.Room.{bytes_wanted, IsLeastFor};
ghost use Rattle.roff_store.specs.TextStore.Strands.{strands_of};

mod leasing;
mod naming;
mod opening;

use crate::chunks::{CHUNK, Chunks};
use crate::lease_table::LeaseTable;
use crate::name_table::NameTable;
use crate::strand::Strand;
use crate::text::{BodyEnd, Kind};
use roff_num::Name;
use std::alloc::{AllocError, Global};
use std::marker::Model;

/// What a name stands for: a text in the chunks, or a request.
#[derive(Clone, Copy)]
pub(crate) enum Meaning {
    Body(Strand),
    Request(u16),
}

/// So many chunks more than can be full or begun, while a text is copied behind another one.
const SPARE: usize = 3;

/// Texts in the making.
type Strands = Vec<Strand>;

/// Strings, macros, diversions and requests under their names, texts in the making, and leases.
///
/// All its memory is reserved as it is made. A body is read where it lies, by a lease, which goes
/// on giving the body's bytes as they were, whatever becomes of its name.
#[derive(Drop)]
pub struct TextStore {
    names: NameTable<Meaning>,
    chunks: Chunks,
    /// The texts in the making.
    open: Strands,
    leases: LeaseTable,
    /// How many bytes bodies and texts in the making have.
    used: usize,
    /// How many bytes the leases still give.
    kept: usize,
    cap_bytes: u32,
    cap_open: u32,
    cap_kept: u32,
}

impl Model for TextStore {
    ghost use Rattle.roff_store.specs.Texts.{Texts};

    ghost Value = { Texts };

    ghost use Rattle.roff_store.specs.TextStore.Kept.{kept_by, IsSound};

    ghost view = { kept_by };

    ghost invariant = { IsSound };
}

impl TextStore {
    ghost use Rattle.roff_store.specs.Texts.{body_of, kept, kind_given, kind_of, used};

    /// A store without names, for so many bytes of bodies and texts in the making, so many names,
    /// texts in the making and leases, and so many bytes that leases still give.
    pub fn new(
        alloc: Global,
        cap_bytes: u32,
        cap_names: u32,
        cap_open: u32,
        cap_leases: u32,
        cap_kept: u32,
    ) -> Result<Self, AllocError>
        ensures { IfOk result (λ t. t ≡ record {
          names = record { entries = []; cap = cap_names };
          open_texts = [];
          leases = [];
          cap_bytes = cap_bytes;
          cap_kept = cap_kept;
          cap_open = cap_open;
          cap_leases = cap_leases;
        }) }
    {
        let most = chunks_wanted(cap_bytes, cap_names, cap_open, cap_leases, cap_kept);
        let names = NameTable::new(alloc, cap_names)?;
        let chunks = Chunks::new(alloc, most)?;
        let open: Strands = Vec::with_capacity(alloc, cap_open as usize)?;
        let leases = LeaseTable::new(alloc, cap_leases)?;
        Ok(TextStore {
            names,
            chunks,
            open,
            leases,
            used: 0,
            kept: 0,
            cap_bytes,
            cap_open,
            cap_kept,
        })
    }

    /// How many bytes bodies and texts in the making have.
    pub fn used(&self) -> usize
        ensures value { result ≡ used self.now }
        ensures within { result ≤ self.now.cap_bytes }
    {
        self.used
    }

    /// How many bytes the leases still give.
    pub fn kept(&self) -> usize
        ensures value { result ≡ kept self.now }
        ensures within { result ≤ self.now.cap_kept }
    {
        self.kept
    }

    /// How many names stand for something.
    pub fn len(&self) -> usize
        ensures value { result ≡ length self.now.names.entries }
        ensures within { result ≤ self.now.names.cap }
    {
        self.names.len()
    }

    /// Whether no name stands for anything.
    pub fn is_empty(&self) -> bool
        ensures { IsTrue result ↔ (length self.now.names.entries ≡ 0) }
    {
        self.len() == 0
    }

    /// What a name stands for: a request, or a body with so many bytes.
    #[inline(always)]
    pub fn get(&self, name: &Name) -> Option<Kind>
        ensures { option_map kind_given result
            ≡ option_map kind_of (entry_of name.now self.now.names.entries) }
    {
        match self.names.get(name)? {
            Meaning::Body(strand) => Some(Kind::Body(strand.rest)),
            Meaning::Request(number) => Some(Kind::Request(number)),
        }
    }

    /// How long the body of a name is, and what it ends in. A name without a body has an empty one.
    pub fn body_end(&self, name: &Name) -> BodyEnd
        ensures len { result.len ≡ length (body_of name.now self.now) }
        ensures last { result.last ≡ last_or None (body_of name.now self.now) }
    {
        match self.names.get(name) {
            Some(Meaning::Body(strand)) => BodyEnd {
                len: strand.rest,
                last: self.chunks.last_byte(strand),
            },
            Some(Meaning::Request(_)) => BodyEnd { len: 0, last: None },
            None => BodyEnd { len: 0, last: None },
        }
    }
}

/// Releases the chunks of what a name stood for.
fn release_body(chunks: &mut Chunks, meaning: Option<Meaning>)
    requires strands { All (IsStrand chunks.old) (strands_of meaning) }
    requires shared { All (IsShared chunks.old) (strands_of meaning) }
    ensures shares { (chunk : ℕ) → share chunks.new chunk
        ≡ share chunks.old chunk
        - sum_by (λ strand. has chunks.old strand chunk) (strands_of meaning) }
    ensures sum { shares_in chunks.new + sum_by (λ strand. strand.chunks) (strands_of meaning)
        ≡ shares_in chunks.old }
    ensures same { AreSameChunks chunks.old chunks.new }
{
    if let Some(Meaning::Body(strand)) = meaning {
        chunks.release(strand);
    }
}

/// How many bytes the body of a name has.
fn body_len(meaning: Option<Meaning>) -> usize
    ensures { result ≡ sum_by (λ strand. strand.rest) (strands_of meaning) }
{
    match meaning {
        Some(Meaning::Body(strand)) => strand.rest,
        _ => 0,
    }
}

/// How many chunks so many bytes, names, texts in the making, leases, and bytes that these still
/// give, may want: no more than these.
fn chunks_wanted(
    cap_bytes: u32,
    cap_names: u32,
    cap_open: u32,
    cap_leases: u32,
    cap_kept: u32,
) -> usize
    ensures { IsLeastFor (bytes_wanted cap_bytes cap_kept cap_names cap_open cap_leases) result }
{
    let full = (cap_bytes as usize + cap_kept as usize).div_ceil(CHUNK);
    let begun = cap_names as usize + cap_open as usize + 2 * cap_leases as usize;
    full + begun + SPARE
}
