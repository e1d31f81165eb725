//! What holds of each file that is written.

ghost use Rattle.elf_write.specs.Laws.{IsReadAgain, IsFileAccepted, IsLoadedWritable};

/// What is written of an image means that image, for each image that an ELF file can have, as those that some file means.
pub fn written_is_read_again()
    ensures again { IsReadAgain }
    ensures files { IsFileAccepted }
{}

/// Each image that is loaded of a file of at most [`MAX_PROGRAM_LEN`](elf_form::MAX_PROGRAM_LEN) bytes can be written.
#[tactic(auto, using(crate::proofs::Rooms::loaded_fits))]
pub fn loaded_can_be_written()
    ensures { IsLoadedWritable }
{}
