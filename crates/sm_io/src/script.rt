// The calls of an object over memory that fail, and bytes that are given in pieces.
ghost use Rattle.std.specs.Prelude.{◌≡◌, ◌<◌, ◌≤◌, ◌-◌, ◌==◌, ◌++◌, [], All, length, drop, take, min, slice_index_or};
ghost use Rattle.std.specs.List.{list_any};
ghost use Rattle.sm_io.specs.Causes.{next_count};

/// The calls that fail, by their numbers from 1, and how many calls were made.
#[derive(Drop)]
pub(super) struct FailingCalls {
    pub failing: Vec<u64>,
    pub calls: u64,
}

impl FailingCalls {
    /// Counts a call, and says whether it is one of those that fail.
    pub(super) fn next_fails(&mut self) -> bool
        ensures listed { result ≡ list_any (λ call. call == self.new.calls) self.new.failing.items }
        ensures counted { self.new.calls ≡ next_count self.old.calls }
        ensures failing { self.new.failing.items ≡ self.old.failing.items }
    {
        self.calls = self.calls.saturating_add(1);
        self.failing.contains(&self.calls)
    }
}

/// Bytes to be given in pieces, of which the k-th has at most as many bytes as the k-th cut says.
#[derive(Drop)]
pub(super) struct CutBytes {
    pub bytes: Vec<u8>,
    pub at: usize,
    pub cuts: Vec<u64>,
    pub ghost within: { at ≤ length bytes.items },
    pub ghost positive: { All (λ cut. 0 < cut) cuts.items },
}

impl CutBytes {
    /// Moves the next bytes to the start of `buf` and gives their count. `call` is the call's number, from 1.
    pub(super) fn take(&mut self, call: u64, buf: &mut [u8]) -> usize
        requires room { 0 < length buf.old }
        ensures count { result ≡ min (min (slice_index_or self.old.cuts.items (call - 1) (length buf.old)) (length buf.old))
            (length (drop self.old.at self.old.bytes.items)) }
        ensures moved { drop self.old.at self.old.bytes.items
            ≡ take result buf.new ++ drop self.new.at self.new.bytes.items }
        ensures end { result ≡ 0 → drop self.new.at self.new.bytes.items ≡ [] }
        ensures cuts { self.new.cuts.items ≡ self.old.cuts.items }
    {
        let left = &self.bytes[self.at..];
        let count = cut_at(&self.cuts, call, buf.len()).min(left.len());
        buf[..count].copy_from_slice(&left[..count]);
        self.at += count;
        count
    }
}

// The cut of the call, and at most the room; past the last cut the room.
fn cut_at(cuts: &[u64], call: u64, room: usize) -> usize
    requires positive { All (λ cut. 0 < cut) cuts.now }
    requires room { 0 < room }
    ensures cut { result ≡ min (slice_index_or cuts.now (call - 1) room) room }
    ensures positive { 0 < result }
{
    match cuts.get(call.saturating_sub(1) as usize) {
        Some(cut) => (*cut).min(room as u64) as usize,
        None => room,
    }
}
