// Declarations, read line by line.
ghost use Rattle.std.specs.Prelude.{◌≡◌, [], ◌∷◌, ℕ};

use crate::declare::DeclareBlock;
use crate::decls::PointDecl;
use crate::ppt::PptBlock;
use dk_base::{BlockFault, same_bytes};
use std::alloc::Global;

/// The form that the declaration has.
#[derive(Drop)]
pub(crate) enum BlockForm {
    Ppt(PptBlock),
    Declare(DeclareBlock),
}

/// A declaration that is being read, line by line.
#[derive(Drop)]
pub struct DeclBlock {
    pub(crate) alloc: Global,
    pub(crate) implicit: bool,
    pub(crate) form: BlockForm,
}

impl DeclBlock {
    ghost use Rattle.dk_decl.specs.Blocks.{block_decl, decl_resumed};
    ghost use Rattle.dk_decl.specs.Outcomes.{AnswerAgrees, ReaderGoesOn};

    /// A declaration that begins with this line, `ppt NAME` or `DECLARE`, under the comparability word `implicit` or `none`.
    /// It is refused as `BadPoint` where `ppt` has no name.
    #[tactic(auto, unfolding(crate::specs::Blocks::block_decl, crate::specs::Blocks::decl_resumed))]
    pub fn begin(
        alloc: Global,
        line: u64,
        bytes: &[u8],
        implicit: bool,
    ) -> Result<DeclBlock, BlockFault>
        ensures { ReaderGoesOn decl_resumed result (block_decl implicit (record { number = line; bytes = bytes.now })) }
    {
        let form = if same_bytes(bytes, b"DECLARE") {
            BlockForm::Declare(DeclareBlock::begin(line))
        } else {
            BlockForm::Ppt(PptBlock::begin(alloc, line, bytes)?)
        };
        Ok(DeclBlock {
            alloc,
            implicit,
            form,
        })
    }

    /// The declaration with one line more. It is refused as `BadPoint` or `BadVariable` as soon as no lines behind it can make it good.
    #[tactic(auto, unfolding(crate::specs::Blocks::decl_resumed))]
    pub fn line(self, line: u64, bytes: &[u8]) -> Result<DeclBlock, BlockFault>
        ensures { ReaderGoesOn decl_resumed result (λ ls. decl_resumed self (record { number = line; bytes = bytes.now } ∷ ls)) }
    {
        let DeclBlock {
            alloc,
            implicit,
            form,
        } = self;
        let form = match form {
            BlockForm::Ppt(block) => BlockForm::Ppt(block.line(alloc, implicit, line, bytes)?),
            BlockForm::Declare(block) => BlockForm::Declare(block.line(
                alloc, implicit, line, bytes,
            )?),
        };
        Ok(DeclBlock {
            alloc,
            implicit,
            form,
        })
    }

    /// What the block declares, where it ends here.
    #[tactic(auto, unfolding(crate::specs::Blocks::decl_resumed))]
    pub fn end(self) -> Result<PointDecl, BlockFault>
        ensures { (close : ℕ) → AnswerAgrees result (decl_resumed self [] (Some close)) }
    {
        let DeclBlock {
            alloc,
            implicit: _,
            form,
        } = self;
        match form {
            BlockForm::Ppt(block) => block.end(alloc),
            BlockForm::Declare(block) => block.end(alloc),
        }
    }
}
