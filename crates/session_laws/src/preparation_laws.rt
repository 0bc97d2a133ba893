//! The reading before a flush, as a session takes it in. The law is the contract of a function that does nothing, and names the laws on
//! which it rests.

ghost use Rattle.session_laws.specs.Preparing.{PreparationsKeepWhole, PreparationsKnowAll, PreparationsLeaveReread};

use preparing_laws::{readings_only_reread, readings_prepare};
use ranked_rows::{selects_answer_table_rows, selects_answer_wide_cells};

/// What is to be known before objects are deleted is read so that a session may take it in, whatever is answered: the store is as it
/// was; of the objects at most cells and links were read, and what was put into a cell of which the row's value was not known is lost.
/// Where that answers, all is known of the objects that are to be deleted. In a transaction a whole session that takes it in stays
/// whole.
pub fn preparations_keep_sessions_whole()
    ensures reread { PreparationsLeaveReread }
    ensures known { PreparationsKnowAll }
    ensures whole { PreparationsKeepWhole }
{
    selects_answer_table_rows();
    selects_answer_wide_cells();
    readings_only_reread();
    readings_prepare();
}
