// The search by a summary (document 02, request (j)), for all figures: the summary tells where a run may start first, and the
// map is looked at there, a stretch of blocks at a time. So every start that it gives was found in the map.
#![tactic(auto)]

ghost use Rattle.std.specs.Prelude.{◌≡◌, ℕ, List, ◌+◌, ◌*◌, ◌/◌, ◌<◌, ◌≤◌, min, leb, length};
ghost use Rattle.map_blocks.specs.Blocks.{free, least_fit};
ghost use Rattle.summary.specs.Summary.{summary_length};
ghost use Rattle.summary_search.specs.SearchBy.{inside_of, whole_of, glance_of, seek_in, stretch, search_down, near_of};
ghost use Rattle.summary_search.specs.SearchBy.{search_by};
ghost use Rattle.summary_search.specs.Seeking.{Lies, Stands, Ahead, Passed, Follows};

use map_search::search;
use map_search_placed::search_placed;
use std::ops::ControlFlow;
use summary::{read, words_of};
use summary_groups::Group;

// What a group tells that has the block `at` inside, and ends before block stop.
fn glance_inside(group: Group, at: u32, k: u32, stop: u32) -> Option<ControlFlow<u32, u32>>
    requires { at ≤ stop }
    ensures { result ≡ inside_of group at k stop }
{
    if group.longest < k {
        return Some(ControlFlow::Continue(group.tail.min(group.longest).min(stop - at)));
    }
    None
}

// What a group of m blocks from base on tells, with s free blocks right before it.
fn glance_whole(group: Group, k: u32, base: u32, m: u32, s: u32) -> Option<ControlFlow<u32, u32>>
    requires { (base + m ≤ 262144) × (s ≤ base) × (s < k) }
    ensures { result ≡ whole_of group k base m s }
{
    if k - s <= group.head {
        return Some(ControlFlow::Break(base - s));
    }
    if k <= group.longest {
        return None;
    }
    if group.head == m {
        return Some(ControlFlow::Continue(s + m));
    }
    Some(ControlFlow::Continue(group.tail.min(group.longest).min(m)))
}

// What a group of m blocks from base on tells a search from block `at` on.
fn glance_at(
    group: Group,
    at: u32,
    k: u32,
    base: u32,
    m: u32,
    s: u32,
) -> Option<ControlFlow<u32, u32>>
    requires { (base + m ≤ 262144) × (at ≤ base → s + at ≤ base) × (s < k) }
    ensures { result ≡ glance_of group at k base m s }
{
    if base + m <= at {
        return Some(ControlFlow::Continue(0));
    }
    if base < at {
        return glance_inside(group, at, k, base + m);
    }
    glance_whole(group, k, base, m, s)
}

// Where a search down the groups stands: at group g, of the m blocks from base on, with s free blocks carried on.
#[derive(Clone, Copy)]
pub struct Place {
    pub g: usize,
    pub base: u32,
    pub m: u32,
    pub s: u32,
}

// What comes next at a place: the group is to be looked at, with the s free blocks right before it; or it is passed, and ends
// in them.
#[derive(Clone, Copy)]
pub enum Stage {
    Look(Place),
    Pass(Place),
}

impl Place {
    // From a group that is looked at to the next: it is passed, or it must be looked into, and is its two halves, one after the
    // other; in one word the run may start anywhere.
    fn look(self, summary: &[u32], at: u32, k: u32) -> ControlFlow<ControlFlow<u32, u32>, Stage>
        requires { (whole : ℕ) × Ahead summary.now at k whole self.g self.base self.m self.s }
        ensures { (whole : ℕ) → Ahead summary.now at k whole self.g self.base self.m self.s
            → Follows summary.now at k whole (Stage.Look self) result }
    {
        match glance_at(read(summary, self.g), at, k, self.base, self.m, self.s) {
            Some(ControlFlow::Break(t)) => ControlFlow::Break(ControlFlow::Break(t)),
            Some(ControlFlow::Continue(end)) => ControlFlow::Continue(Stage::Pass(Place {
                s: end,
                ..self
            })),
            None => {
                if self.m == 64 {
                    return ControlFlow::Break(ControlFlow::Break(at.max(self.base)));
                }
                let g = 2 * self.g + 1;
                let m = self.m / 2;
                ControlFlow::Continue(Stage::Look(Place { g, m, ..self }))
            }
        }
    }

    // From a group that is passed to the next: behind a first half is the second, and behind a second half the whole is passed.
    fn pass(self, whole: u32) -> ControlFlow<ControlFlow<u32, u32>, Stage>
        requires { (summary : List ℕ) × (at : ℕ) × (k : ℕ) × Passed summary at k whole self.g self.base self.m self.s }
        ensures { (summary : List ℕ) (at k : ℕ) → Passed summary at k whole self.g self.base self.m self.s
            → Follows summary at k whole (Stage.Pass self) result }
    {
        if self.base + self.m == whole {
            return ControlFlow::Break(ControlFlow::Continue(self.s));
        }
        if self.g % 2 == 1 {
            let g = self.g + 1;
            let base = self.base + self.m;
            return ControlFlow::Continue(Stage::Look(Place { g, base, ..self }));
        }
        let g = self.g / 2 - 1;
        let base = self.base - self.m;
        let m = 2 * self.m;
        ControlFlow::Continue(Stage::Pass(Place { g, base, m, ..self }))
    }
}

// From a stage to the next, or to the search's end.
fn advance(
    summary: &[u32],
    at: u32,
    k: u32,
    whole: u32,
    stage: Stage,
) -> ControlFlow<ControlFlow<u32, u32>, Stage>
    requires { Stands summary.now at k whole stage }
    ensures { Follows summary.now at k whole stage result }
{
    match stage {
        Stage::Look(place) => place.look(summary, at, k),
        Stage::Pass(place) => place.pass(whole),
    }
}

// Where a run of k may start first, from block `at` on, in the groups of the m blocks of a summary: by its numbers alone. A
// start, or the free blocks carried on where there is none.
fn seek_down(summary: &[u32], at: u32, k: u32, m: u32) -> ControlFlow<u32, u32>
    requires { Lies summary.now 0 0 m × (0 < k) }
    ensures { result ≡ seek_in (m / 64) summary.now at k 0 0 m 0 }
{
    let mut stage = Stage::Look(Place {
        g: 0,
        base: 0,
        m,
        s: 0,
    });
    loop {
        match advance(summary, at, k, m, stage) {
            ControlFlow::Continue(next) => stage = next,
            ControlFlow::Break(step) => return step,
        }
    }
}

// Whether a run of k that starts at t ends at or before `before`.
fn ends_before(t: u32, k: u32, before: u32) -> bool
    ensures { result ≡ leb (t + k) before }
{
    if before < k {
        return false;
    }
    t <= before - k
}

// How many blocks behind the first start a turn looks at.
fn stretch_of(step: u32) -> u32
    ensures { result ≡ stretch step }
{
    64 * step.clamp(64, 4096)
}

// The least fit that the map alone tells. Where any start will do, no figures are needed.
fn fit_in_map(map: &[u64], from: u32, end: u32, step: u32, k: u32) -> Option<u32>
    requires { (end ≤ 262144) × (end ≤ 64 * length map.now) × (0 < k) × (0 < step) }
    ensures { result ≡ least_fit (free map.now) from end step k }
{
    if step == 1 {
        return search(map, from, end, k);
    }
    search_placed(map, from, end, step, k)
}

// The least fit of a stretch of the map, from block t on.
fn look_at(map: &[u64], t: u32, before: u32, step: u32, k: u32) -> Option<u32>
    requires { (before ≤ 262144) × (before ≤ 64 * length map.now) × (t + k ≤ before) × (0 < k) × (0 < step) }
    ensures { result ≡ least_fit (free map.now) t (min before (t + k + stretch step)) step k }
{
    let end = before.min(t + k + stretch_of(step));
    fit_in_map(map, t, end, step, k)
}

// The search down the groups of a summary.
fn search_down(
    map: &[u64],
    summary: &[u32],
    from: u32,
    before: u32,
    step: u32,
    k: u32,
) -> Option<u32>
    requires { (length map.now ≤ 4096) × (before ≤ 64 * length map.now)
        × (length summary.now ≡ summary_length (length map.now)) × (0 < k) × (0 < step) }
    ensures { result ≡ search_down map.now summary.now from before step k }
{
    if summary[2] < k {
        return None;
    }
    let m = 64 * (words_of(summary) as u32);
    let mut at = from;
    while at < before {
        let ControlFlow::Break(t) = seek_down(summary, at, k, m) else {
            return None;
        };
        if ends_before(t, k, before) {
            match look_at(map, t, before, step, k) {
                Some(s) => return Some(s),
                None => at = t + stretch_of(step) + 1,
            }
        } else {
            return None;
        }
    }
    None
}

// How many blocks are looked at first, without the groups.
fn near_of(step: u32, k: u32) -> u32
    ensures { result ≡ near_of step k }
{
    if 8 < step {
        return 0;
    }
    if 16 < k {
        return 0;
    }
    512
}

// Where they end.
fn near_end(from: u32, before: u32, step: u32, k: u32) -> u32
    requires { before ≤ 262144 }
    ensures { result ≡ min before (from + near_of step k) }
{
    before.min(from.saturating_add(near_of(step, k)))
}

// The least fit of the first words of the map.
fn look_near(map: &[u64], from: u32, before: u32, step: u32, k: u32) -> Option<u32>
    requires { (before ≤ 262144) × (before ≤ 64 * length map.now) × (0 < k) × (0 < step) }
    ensures { result ≡ least_fit (free map.now) from (min before (from + near_of step k)) step k }
{
    fit_in_map(map, from, near_end(from, before, step, k), step, k)
}

// The search by a summary. On most cards a few blocks are found in the first words, and the groups are not needed.
pub fn search_by(
    map: &[u64],
    summary: &[u32],
    from: u32,
    before: u32,
    step: u32,
    k: u32,
) -> Option<u32>
    requires { (length map.now ≤ 4096) × (before ≤ 64 * length map.now)
        × (length summary.now ≡ summary_length (length map.now)) × (0 < k) × (0 < step) }
    ensures { result ≡ search_by map.now summary.now from before step k }
{
    if k <= summary[2] {
        return match look_near(map, from, before, step, k) {
            Some(start) => Some(start),
            None => search_down(map, summary, from, before, step, k),
        };
    }
    None
}
