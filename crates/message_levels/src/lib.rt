// The levels of the lent workspace: in each the numbers of a set, the label, the stage. The one crate that knows where
// a level stands and what stands where in it. Its `pub` is for sister crates only.
// Work on one level borrows that level alone, a mutable part from the workspace's middle: each `_at` contract says
// that the rest of the workspace stays. Read specs/Level first. Read next: message_starts.
#![tactic(auto)]

ghost use Rattle.std.specs.Prelude.{◌≡◌, ◌++◌, ◌+◌, ◌*◌, ◌<◌, ◌≤◌, length, drop, replicate};
ghost use Rattle.rules.specs.Sets.{set_width, leaves_of};
ghost use Rattle.rules.specs.Memory.{question_width, key_of};
ghost use Rattle.rules.specs.Run.{level_width, levels, workspace_width};
ghost use Rattle.number_text.specs.Meant.{meant};
ghost use Rattle.book_plan.specs.Plan.{states_in};
ghost use Rattle.message_levels.specs.Level.{HasLevel, label_in, stage_in, set_at, asks_at};
ghost use Rattle.message_levels.specs.Level.{opened_at, staged_at, joined_at};

use book_plan::Plan;
use number_text::Value;
use std::ops::Range;

// The most starts that may be open at once.
pub const MOST_OPEN: usize = 64;

// A level's numbers.
pub const LEVEL: usize = SET + 2;

// A level for each start that may be open, and the root's.
pub const LEVELS: usize = MOST_OPEN + 1;

pub const WORKSPACE: usize = LEVEL * LEVELS;

// In a level: the set, the label behind it, the stage behind that.
const SET: usize = set_bits::WIDTH;

const LABEL: usize = SET;

const STAGE: usize = SET + 1;

// What came in a level: attributes at most, a child element, or a text. Constants and no enum: a level is lent as
// numbers, and any may stand there.
pub const NOTHING_CAME: u64 = 0;

pub const CHILD_CAME: u64 = 1;

pub const TEXT_CAME: u64 = 2;

// A question is a set and a label.
const QUESTION: usize = SET + 1;

// The workspace is lent as numbers, so this and each function below names the level that it has.
pub fn label_of(workspace: &[u64], d: usize) -> u64
    requires { HasLevel workspace.now d }
    ensures { result ≡ label_in workspace.now d }
{
    workspace[LEVEL * d + LABEL]
}

pub fn stage_of(workspace: &[u64], d: usize) -> u64
    requires { HasLevel workspace.now d }
    ensures { result ≡ stage_in workspace.now d }
{
    workspace[LEVEL * d + STAGE]
}

#[tactic(auto, using(crate::specs::Laws::set_lent))]
pub fn set_of(workspace: &[u64], d: usize) -> &[u64]
    requires { HasLevel workspace.now d }
    ensures { result.now ≡ set_at workspace.now d }
{
    let a = LEVEL * d;
    &workspace[a..a + SET]
}

// The numbers of what a level asks: its set and label, as they stand.
#[tactic(auto, using(crate::specs::Laws::question_lent_lem))]
pub fn question_of(workspace: &[u64], d: usize) -> &[u64]
    requires { HasLevel workspace.now d }
    ensures { (result.now ≡ key_of (asks_at workspace.now d)) × (length result.now ≡ question_width) }
{
    let a = LEVEL * d;
    &workspace[a..a + QUESTION]
}

// A level's numbers in the workspace.
fn place(d: usize) -> Range<usize>
    requires { d < levels }
    ensures { result ≡ record { start = level_width * d; end = level_width * d + level_width } }
{
    LEVEL * d..LEVEL * d + LEVEL
}

// A level as a start opens it: its label, and nothing else.
#[tactic(auto, using(crate::specs::Laws::opened_back, crate::specs::Laws::opened_is, crate::specs::Laws::lent_long))]
pub fn open_at(workspace: &mut [u64], d: usize, label: u64)
    requires { HasLevel workspace.old d }
    ensures { workspace.new ≡ opened_at workspace.old d label }
{
    let opened = &mut workspace[place(d)];
    opened.fill(0);
    opened[LABEL] = label;
}

// A level's stage: a child element or a text came.
#[tactic(auto, using(crate::specs::Laws::staged_back, crate::specs::Laws::staged_is))]
pub fn stage_at(workspace: &mut [u64], d: usize, to: u64)
    requires { HasLevel workspace.old d }
    ensures { workspace.new ≡ staged_at workspace.old d to }
{
    let level = &mut workspace[place(d)];
    level[STAGE] = to;
}

// An answer is joined to a level's set as it stands.
#[tactic(auto, using(crate::specs::Laws::joined_back, crate::specs::Laws::joined_is))]
pub fn join_at(workspace: &mut [u64], d: usize, answer: &[u64])
    requires { HasLevel workspace.old d × (length answer.now ≡ set_width) }
    ensures { workspace.new ≡ joined_at workspace.old d answer.now }
{
    let level = &mut workspace[place(d)];
    set_bits::join(&mut level[0..SET], answer);
}

// The LEAF states of a value are joined to a level's set: a text adds to what the attributes brought.
#[tactic(auto, using(crate::specs::Laws::joined_back, crate::specs::Laws::joined_is))]
pub fn leaves_at(workspace: &mut [u64], d: usize, plan: &Plan, value: Value)
    requires { HasLevel workspace.old d }
    ensures { workspace.new ≡ joined_at workspace.old d (leaves_of (states_in plan.now) (meant value)) }
{
    let level = &mut workspace[place(d)];
    set_leaves::leaves(plan, value, &mut level[0..SET]);
}

// The levels cleared; what is lent past them stays.
pub fn clear(workspace: &mut [u64])
    requires { workspace_width ≤ length workspace.old }
    ensures { workspace.new ≡ replicate workspace_width 0 ++ drop workspace_width workspace.old }
{
    workspace[0..WORKSPACE].fill(0);
}
