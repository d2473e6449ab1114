// The bounds of a model text: document 01's numbers, each once.
ghost use Rattle.std.specs.Prelude.{◌&&◌, ◌≡◌, ◌-◌, ◌≤◌, min, eqb};
ghost use Rattle.model.specs.Bounds as Bounds;
ghost use Rattle.model.specs.ModelText as ModelText;

pub const EDITION: u32 = 1;

pub const MOST_CLASSES: u32 = 16;

pub const MOST_ATTRIBUTES: u32 = 8;

pub const MOST_METHODS: u32 = 8;

pub const MOST_PARAMS: u32 = 4;

pub const MOST_LOCALS: u32 = 8;

const MOST_LINES: u32 = 64;

// "All `lines=` together are at most 512."
const ALL_LINES: u32 = 512;

// "Class 0 has given 0"; another at most its attributes.
#[tactic(auto, unfolding(crate::specs::ModelText::zero_if))]
pub fn most_given(class: u32, attrs: u32) -> u32
    ensures { result ≡ ModelText.zero_if (eqb class 0) attrs }
{
    if class == 0 { 0 } else { attrs }
}

// "Class 0 has .. run 1."
pub fn least_run(class: u32) -> u32
    ensures { result ≡ 1 - class }
{
    u32::from(class == 0)
}

// "Where run is 1, method 0 has params 0."
#[tactic(auto, unfolding(crate::specs::ModelText::zero_if))]
pub fn most_params(run: u32, method: u32) -> u32
    ensures { result ≡ ModelText.zero_if (eqb run 1 && eqb method 0) Bounds.most_params }
{
    if run == 1 && method == 0 {
        0
    } else {
        MOST_PARAMS
    }
}

// The 64, or what is left of the 512 after so many lines. That these are at most 512 stays a clause, here and where lines are counted: a type for the
// sum would be made anew at each method.
pub fn most_lines(total: u32) -> u32
    requires { total ≤ 512 }
    ensures { result ≡ min Bounds.most_lines (Bounds.all_lines - total) }
{
    MOST_LINES.min(ALL_LINES - total)
}
