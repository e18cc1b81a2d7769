// A literal's variable and its sign, and whether the literals of a clause are all of the problem's variables.
#![tactic(auto)]

ghost use Rattle.std.specs.Prelude.{◌≡◌};
ghost use Rattle.paper.specs.Clauses.{variable, every};
ghost use Rattle.paper.specs.Session.{problem_literal};
ghost use Rattle.variables.specs.Literals.{negative};

// The least i32 has a variable too: its absolute value fits a u32.
pub fn variable_of(literal: i32) -> u32
    ensures { result ≡ variable literal }
{
    literal.unsigned_abs()
}

pub fn is_negative(literal: i32) -> bool
    ensures { result ≡ negative literal }
{
    literal < 0
}

// In a rule or a wish every literal is of the problem's variables.
fn problem_literal(variables: u32, literal: i32) -> bool
    ensures { result ≡ problem_literal variables literal }
{
    let variable = variable_of(literal);
    1 <= variable && variable <= variables
}

pub fn all_problem(variables: u32, clause: &[i32]) -> bool
    ensures { result ≡ every (problem_literal variables) clause.now }
{
    clause
        .iter()
        .all(|literal| problem_literal(variables, *literal))
}
