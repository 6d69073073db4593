//! The colours of a picture.
/// Colours that colour-blind people can tell apart (Okabe and Ito), on a light ground and, where the
/// reader's screen is dark, on a dark one. Yellow is darker on the light ground; on the dark one black is
/// white, and the two blues are lighter.
pub(crate) const STYLE: &str = "<style type=\"text/css\">
.ground{fill:#ffffff}
text{font-family:sans-serif;font-size:12px;fill:#222222}
.title{font-size:18px}
.heading{font-size:14px}
.grid{stroke:#d8d8d8;stroke-width:1}
.server{fill:none;stroke-linejoin:round}
.bar{fill:none}
.c0{stroke:#0072b2}
.c1{stroke:#e69f00}
.c2{stroke:#009e73}
.c3{stroke:#cc79a7}
.c4{stroke:#56b4e9}
.c5{stroke:#d55e00}
.c6{stroke:#000000}
.c7{stroke:#a89600}
.forwarded{stroke:#0072b2}
.outward{stroke:#56b4e9}
.passed{stroke:#999999}
.nodest{stroke:#d55e00}
.gone{stroke:#e69f00}
.toolong{stroke:#cc79a7}
.malformed{stroke:#000000}
.edits{fill:#0072b2}
.sweeps{fill:#e69f00}
.records{fill:#009e73}
@media (prefers-color-scheme:dark){
.ground{fill:#1c1c1c}
text{fill:#e8e8e8}
.grid{stroke:#444444}
.c0,.forwarded{stroke:#2f8fd0}
.c4,.outward{stroke:#bfe3f7}
.c6,.malformed{stroke:#ffffff}
.c7{stroke:#f0e442}
.edits{fill:#2f8fd0}
}
</style>
";
