//! Laws over the texts, as the contracts of functions that do nothing.
ghost use Rattle.bp_cert.specs.Texts.{problem_lines, all_certificate_lines, IsProblem, IsSpeakable};
ghost use Rattle.bp_text.specs.Laws.{HasOneSpelling, IsPrefixFree, IsReadOneWay};

/// No two problems have one text, and none goes on behind another; bytes are read as a problem in one way.
pub fn problems_have_one_spelling()
    ensures spelling { HasOneSpelling problem_lines }
    ensures prefix { IsPrefixFree problem_lines }
    ensures reading { IsReadOneWay problem_lines IsProblem }
{}

/// No two certificates have one text, and none goes on behind another; bytes are read as a certificate in one way.
pub fn certificates_have_one_spelling()
    ensures spelling { HasOneSpelling all_certificate_lines }
    ensures prefix { IsPrefixFree all_certificate_lines }
    ensures reading { IsReadOneWay all_certificate_lines IsSpeakable }
{}
