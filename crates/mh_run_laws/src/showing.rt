//! Laws of what a heap shows while it is collected.
ghost use Rattle.mh_run_laws.specs.Showing.{QuantaKeepTheView, KeptViewsAreClosed, KeptViewsAgreeWithThemselves};

/// After each quantum, what the heap shows agrees with the world that it agreed with before.
pub fn quanta_keep_the_view()
    ensures { QuantaKeepTheView }
{}

/// What a kept heap shows is closed.
pub fn kept_views_are_closed()
    ensures { KeptViewsAreClosed }
{}

/// What a kept heap shows agrees with itself.
pub fn kept_views_agree_with_themselves()
    ensures { KeptViewsAgreeWithThemselves }
{}
