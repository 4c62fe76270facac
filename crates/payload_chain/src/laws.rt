//! Laws of chains that were written.

ghost use Rattle.payload_chain.specs.Chains.{ChainWritten, WrittenComesBack};

use page_list::one_chain;

/// Bytes written to as many pages as they need, all different, are a chain there with zeros behind them, and no other
/// page changes.
pub fn chain_written()
    ensures { ChainWritten }
{}

/// A chain that was written, and whose pages hold what they held then, is read as the bytes that were written, and is
/// freed as the pages that were taken for it.
pub fn written_comes_back()
    ensures { WrittenComesBack }
{
    one_chain();
}
