//! Laws of the freelist and of chains: what follows from the definitions alone.

ghost use Rattle.page_list.specs.Freelist.{OneFreelist};
ghost use Rattle.page_list.specs.Chain.{OneChain, OneEnd};
ghost use Rattle.page_list.specs.Laws.{Takes, Gives, TakesEach, TakenGood, GivesEach, NotDamaged, FreelistStays, ChainStays};

/// Pages have one freelist at most, so what is said of every freelist that they have is said of one.
pub fn one_freelist()
    ensures { OneFreelist }
{}

/// For a first page and a length there is at most one chain; and a chain that is there is nowhere broken, and none
/// of its pages fails its checksum.
pub fn one_chain()
    ensures { OneChain }
{}

/// A chain that is not there ends in one way: it is broken at one page, or one page of it is the first that fails.
pub fn one_end()
    ensures { OneEnd }
{}

/// Where the pages have a freelist, taking a page leaves it without just that page.
pub fn take_keeps()
    ensures { Takes }
{}

/// Where they have one, giving a page that is not in it leaves it with just that page more.
pub fn give_keeps()
    ensures { Gives }
{}

/// The same of many pages taken one after the other.
pub fn takes_keep()
    ensures { TakesEach }
{}

/// No page that was taken is bad, where no free page was.
pub fn taken_good()
    ensures { TakenGood }
{}

/// The same of many pages given one after the other.
pub fn gives_keep()
    ensures { GivesEach }
{}

/// A freelist that is there is not damaged.
pub fn not_damaged()
    ensures { NotDamaged }
{}

/// A freelist depends on no more than the first trunk that page 1 names and the pages of its trunks.
pub fn freelist_stays()
    ensures { FreelistStays }
{}

/// A chain depends on no pages but its own.
pub fn chain_stays()
    ensures { ChainStays }
{}
