//! The token list of a file, and what written Go files read as.

ghost use Rattle.std.specs.Prelude.{◌≤◌, length};
ghost use Rattle.sq_syntax.specs.Tokens.{TokensOf};
ghost use Rattle.sq_lexer.specs.TokenList.{token_list, AnswersList};
ghost use Rattle.sq_reader.specs.Reading as reading;
ghost use Rattle.sq_reader.specs.Answer.{ReadsBack};

use sq_base::{Fault, File, List};
use sq_reader::ReadBack;
use sq_shown::Shown;
use sq_syntax::Token;
use std::alloc::Global;

pub fn tokens(alloc: Global, file: u32, bytes: &[u8]) -> Result<List<Token>, Fault>
    requires { length bytes.now ≤ 4194304 }
    ensures meant { TokensOf file bytes.now result }
    ensures list { AnswersList (token_list file bytes.now) result }
{
    sq_lexer::tokens(alloc, file, bytes)
}

pub fn read_go(alloc: Global, files: &List<File>) -> Result<List<Shown>, ReadBack>
    ensures { ReadsBack result (reading.read_go files.now) }
{
    sq_reader::read_go(alloc, files)
}
