ghost use Rattle.std.specs.Prelude.{ℕ};
ghost use Rattle.ox_bytes.specs.Form.{Form, IsExact, pair_by};
ghost use Rattle.ox_bytes.specs.Lists.{Course, list_by};

/// A field whose form depends on one before it: both together are exact.
pub fn law_pair_by<A, B>()
    ensures { (first : Form A) (second : A → Form B) → IsExact first → ((a : A) → IsExact (second a)) → IsExact (pair_by first second) }
{}

/// A list whose items depend on those before them, as where an order is kept, is exact where its number and each item
/// are.
pub fn law_list_by<S, A>()
    ensures { (count : Form ℕ) (course : Course S A) (s : S) → IsExact count → ((t : S) → IsExact (course.form t)) → IsExact (list_by count course s) }
{}
