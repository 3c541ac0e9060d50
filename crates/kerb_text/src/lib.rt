// The interface for C and Rust, continued: text lists into link files and out of them. What each call gives, and what the output holds at
// the end, is what its definition says, for every input.
#![tactic(auto)]

ghost use Rattle.text_list.specs.Call.{text_in_of, GivesTextIn, text_out_of, GivesTextOut};

use settings::Settings;
use text_list::{TextInAnswer, TextOutAnswer};

// The link file of these settings and of a text's links, at the front of the output.
#[unsafe(no_mangle)]
pub extern "C" fn kerb_text_in(s: Settings, text: &[u8], out: &mut [u8]) -> TextInAnswer
    ensures { GivesTextIn (text_in_of s text.now out.old) result out.new }
{
    TextInAnswer::from(text_in::text_in(s, text, out))
}

// The text of a link file's records, at the front of the output.
#[unsafe(no_mangle)]
pub extern "C" fn kerb_text_out(file: &[u8], out: &mut [u8]) -> TextOutAnswer
    ensures { GivesTextOut (text_out_of file.now out.old) result out.new }
{
    TextOutAnswer::from(text_out::text_out(file, out))
}
