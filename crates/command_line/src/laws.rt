//! Laws of command lines.
ghost use Rattle.std.specs.Prelude.{◌≡◌, ◌↔◌, ◌++◌, ℕ, List, [], ◌∷◌, true, false, codes, IsTrue, None, Some};
ghost use Rattle.std.specs.List.{list_any};
ghost use Rattle.row_words.specs.Shape.{IsShape};
ghost use Rattle.row_words.specs.declared.shape.Shape.{Shape};
ghost use Rattle.command_line.specs.Marks.{Mark, MayPass, is_dashed, is_equals, marks};
ghost use Rattle.command_line.specs.Commands.{Run, Lanes, Serve, Fill, command, command_of};
ghost use Rattle.command_line.specs.Options.{is_shape, standard};

/// The ranges that a command line asks of a shape are those of `Shape::check`.
pub fn same_ranges()
    ensures { (k : Shape) → IsTrue (is_shape k) ↔ IsShape k }
{}

/// Options stand in any order, among themselves and among positional words.
pub fn any_order()
    ensures { (word : List ℕ) (front back : List Mark) (m n : Mark) → MayPass m n
        → command_of word (front ++ m ∷ n ∷ back) ≡ command_of word (front ++ n ∷ m ∷ back) }
{}

/// `--name=value` in one word says the same as `--name value` in two.
pub fn both_forms()
    ensures { (name value : List ℕ) (words : List (List ℕ)) → is_dashed name ≡ true → list_any is_equals name ≡ false
        → marks ((name ++ 61 ∷ value) ∷ words) ≡ marks (name ∷ value ∷ words) }
{}

/// What some command lines ask.
pub fn worked_lines()
    ensures run { command (codes "run" ∷ []) ≡ Some (Run standard) }
    ensures fill { command (codes "fill" ∷ codes "7" ∷ codes "8" ∷ []) ≡ Some (Fill 7 8 standard) }
    ensures options { command (codes "fill" ∷ codes "--lanes" ∷ codes "64" ∷ codes "7" ∷ codes "--salt=9" ∷ codes "8" ∷ [])
        ≡ Some (Fill 7 8 record standard { lanes = 64; salt = 9 }) }
    ensures lanes { command (codes "lanes" ∷ codes "--tries" ∷ codes "9" ∷ codes "16" ∷ [])
        ≡ Some (Lanes 16 (Some 9) standard) }
    ensures serve { command (codes "serve" ∷ codes "127.0.0.1:0" ∷ codes "--sessions=3" ∷ codes "--lanes" ∷ codes "2" ∷ [])
        ≡ Some (Serve (codes "127.0.0.1:0") 2 3 record standard { lanes = 2 }) }
    ensures none { command [] ≡ None }
    ensures other { command (codes "help" ∷ []) ≡ None }
    ensures further { command (codes "run" ∷ codes "extra" ∷ []) ≡ None }
    ensures range { command (codes "run" ∷ codes "--soft" ∷ codes "3" ∷ []) ≡ None }
    ensures lane_range { command (codes "lanes" ∷ codes "17" ∷ []) ≡ None }
    ensures no_lanes { command (codes "lanes" ∷ codes "0" ∷ []) ≡ None }
    ensures other_option { command (codes "run" ∷ codes "--tries" ∷ codes "9" ∷ []) ≡ None }
    ensures repeated { command (codes "run" ∷ codes "--soft=64" ∷ codes "--soft" ∷ codes "64" ∷ []) ≡ None }
    ensures valueless { command (codes "run" ∷ codes "--soft" ∷ []) ≡ None }
    ensures dashes { command (codes "run" ∷ codes "--" ∷ []) ≡ None }
{}
