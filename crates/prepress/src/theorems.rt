// How areas lie on a page: the contract here is a theorem about pages of every size, and no body does anything.
ghost use Rattle.prepress.specs.Areas.{AreasPartPages};

fn areas_part_pages()
    ensures { AreasPartPages }
{}
