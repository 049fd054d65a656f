ghost use Rattle.std.specs.Prelude.{◌≡◌, ◌≤◌, ℕ, true, is_some, List, map, Some, None};
ghost use Rattle.clap.specs.Walk.{Text};
ghost use Rattle.cv_command_arguments.specs.Forms.{Names, comparison_of, drill_rows, order_app, order_rows, package_names, seed_of, takes_none, workers_of};
ghost use Rattle.cv_command_arguments.specs.Simple.{rows_by};
ghost use Rattle.cv_command_arguments.specs.Values.{drill_form, is_end, order_form, serve_form};

/// What holds of all arguments of a command without arguments, whatever its name: it takes none, or `--` alone.
pub fn bare_law()
    ensures { (name : Text) (arguments : List Text) → takes_none name arguments ≡ is_end arguments }
{}

/// What holds of all arguments of `order`. Where the names lie in memory makes no difference, `place`. Arguments that are taken give a
/// comparison, `taken`, and a definition by cases says which ones are taken and which comparison they give, `form`.
pub fn order_laws()
    ensures place { (names : Names) → map (λ name. name.now) names.now ≡ package_names → (arguments : List Text) → rows_by (order_app names) arguments ≡ order_rows arguments }
    ensures taken { (arguments : List Text) → is_some (comparison_of arguments) ≡ is_some (order_rows arguments) }
    ensures form { (arguments : List Text) → comparison_of arguments ≡ order_form arguments }
{}

/// What holds of all arguments of `serve`. A definition by cases says which ones are taken and which number they give, `form`. A number
/// is from 1 to 8, `within`, and if the arguments are taken and give none, the option is not there, `given`.
pub fn serve_laws()
    ensures form { (arguments : List Text) → workers_of arguments ≡ serve_form arguments }
    ensures within { (arguments : List Text) (n : ℕ) → workers_of arguments ≡ Some (Some n) → (1 ≤ n) × (n ≤ 8) }
    ensures given { (arguments : List Text) → workers_of arguments ≡ Some None → is_end arguments ≡ true }
{}

/// What holds of all arguments of `drill`. Those that are taken give a seed, `taken`, of 32 bits, `within`, and a definition by cases says
/// which ones are taken and which seed they give, `form`.
pub fn drill_laws()
    ensures taken { (arguments : List Text) → is_some (seed_of arguments) ≡ is_some (drill_rows arguments) }
    ensures within { (arguments : List Text) (n : ℕ) → seed_of arguments ≡ Some n → n ≤ 4294967295 }
    ensures form { (arguments : List Text) → seed_of arguments ≡ drill_form arguments }
{}
