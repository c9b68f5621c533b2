// The texts that don't depend on the number.
ghost use Rattle.std.specs.Prelude.{◌≡◌};
ghost use Rattle.dk_generate.specs.Texts.{declarations, generated_line, generated_name};

const NAME: &str = "generated";

const LINE: &str = "generated 20000 records\n";

const DECLARATIONS: &str = "\
decl-version 2.0
var-comparability none

ppt Stack:::OBJECT
ppt-type object
variable this.top
var-kind field top
rep-type int
variable this.items[..]
var-kind array
rep-type int[]

ppt Stack.push(int):::ENTER
ppt-type enter
parent parent Stack:::OBJECT 1
variable this.top
var-kind field top
rep-type int
parent Stack:::OBJECT 1
variable this.items[..]
var-kind array
rep-type int[]
parent Stack:::OBJECT 1
variable x
var-kind variable
rep-type int

ppt Stack.push(int):::EXIT1
ppt-type subexit
parent parent Stack:::OBJECT 1
variable this.top
var-kind field top
rep-type int
parent Stack:::OBJECT 1
variable this.items[..]
var-kind array
rep-type int[]
parent Stack:::OBJECT 1
variable x
var-kind variable
rep-type int

ppt Stack.pop():::ENTER
ppt-type enter
parent parent Stack:::OBJECT 1
variable this.top
var-kind field top
rep-type int
parent Stack:::OBJECT 1
variable this.items[..]
var-kind array
rep-type int[]
parent Stack:::OBJECT 1

ppt Stack.pop():::EXIT2
ppt-type subexit
parent parent Stack:::OBJECT 1
variable this.top
var-kind field top
rep-type int
parent Stack:::OBJECT 1
variable this.items[..]
var-kind array
rep-type int[]
parent Stack:::OBJECT 1
variable return
var-kind return
rep-type int
";

/// The name that the generated input has as a file.
#[tactic(auto, unfolding(crate::specs::Texts::generated_name))]
pub fn generated_name() -> &'static str
    ensures { result.now ≡ generated_name }
{
    NAME
}

/// The line on Messages that tells of the generated input.
#[tactic(auto, unfolding(crate::specs::Texts::generated_line))]
pub fn generated_line() -> &'static str
    ensures { result.now ≡ generated_line }
{
    LINE
}

/// The first block and the declarations.
#[tactic(auto, unfolding(crate::specs::Texts::declarations))]
pub(crate) fn declarations() -> &'static str
    ensures { result.now ≡ declarations }
{
    DECLARATIONS
}
