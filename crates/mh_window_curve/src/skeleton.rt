//! What a picture has besides its points, in SVG: 800 wide and 450 high. The two lines differ in colour, also to the
//! colour-blind, and in stroke.

/// Up to the description, which the counts follow.
pub(crate) const HEAD: &str =
    "<svg xmlns=\"http://www.w3.org/2000/svg\" viewBox=\"0 0 800 450\" font-family=\"sans-serif\" font-size=\"12\">
<title>Minimum mutator utilisation</title>
<desc>The least share of the mutator in windows of each length: ";

/// Up to the counts below the title.
pub(crate) const COUNTS: &str = "</desc>
<rect width=\"800\" height=\"450\" fill=\"#ffffff\"/>
<text x=\"70\" y=\"28\" font-size=\"16\">Minimum mutator utilisation</text>
<text x=\"70\" y=\"48\">";

/// The axes, with the labels of the shares.
pub(crate) const AXES: &str = "</text>
<path d=\"M70 60H770M70 138H770M70 216H770M70 294H770\" stroke=\"#cccccc\"/>
<path d=\"M70 60V372H770\" fill=\"none\" stroke=\"#333333\"/>
<g text-anchor=\"end\">
<text x=\"64\" y=\"64\">100 %</text>
<text x=\"64\" y=\"142\">75 %</text>
<text x=\"64\" y=\"220\">50 %</text>
<text x=\"64\" y=\"298\">25 %</text>
<text x=\"64\" y=\"376\">0 %</text>
</g>
<g text-anchor=\"middle\">
";

/// After the labels of the windows.
pub(crate) const WINDOWS: &str =
    "<text x=\"420\" y=\"420\">Window in units, each an eighth longer than the one before it: the scale is logarithmic</text>
</g>
<g text-anchor=\"end\" font-size=\"14\">
<text x=\"770\" y=\"28\" fill=\"#0072b2\">least share of the mutator</text>
";

/// Where there are floors.
pub(crate) const FLOOR_LEGEND: &str =
    "<text x=\"770\" y=\"48\" fill=\"#d55e00\">share that is promised (dashed)</text>
";

/// Up to the line of the floors.
pub(crate) const LEGEND: &str = "</g>
<g fill=\"none\" stroke-width=\"2\">
<polyline stroke=\"#d55e00\" stroke-dasharray=\"6 4\" points=\"";

/// Between the two lines.
pub(crate) const SHARES: &str = "\"/>
<polyline stroke=\"#0072b2\" points=\"";

pub(crate) const END: &str = "\"/>
</g>
</svg>
";
