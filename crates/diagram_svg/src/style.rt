//! The look of a drawing. Colours say nothing that words or lines don't say too.

use std::alloc::{AllocError, Global};

/// The style of each class of figures, in CSS, on light and on dark backgrounds.
pub(crate) fn style() -> &'static str {
    "
text{font:14px \"DejaVu Sans\",Verdana,sans-serif;fill:#1d2733}
.command{font-family:\"DejaVu Sans Mono\",Menlo,Consolas,monospace;font-size:13px}
.said,.under{font-size:11px;fill:#5b6875}
.name{font-weight:bold}
.name,.under,.words{text-anchor:middle}
.words{font-size:12px}
.paper{fill:#fff}
.rule{stroke:#e3e8ed}
.life{stroke:#8b98a5;stroke-width:2}
.node{fill:#eef3f8;stroke:#8b98a5}
.sent,.head,.waiting{stroke:#1f5fa8;stroke-width:1.8}
.start{fill:#1f5fa8}
.waiting{stroke-dasharray:6 4}
.lost{stroke:#a3262a;stroke-width:1.8;stroke-dasharray:2 4}
.cross{stroke:#a3262a;stroke-width:2.5}
.label,.label-left{font-size:12px;fill:#163f70;paint-order:stroke;stroke:#fff;stroke-width:4px}
.label-left{text-anchor:end}
.plain{fill:#fff;stroke:#8b98a5}
.calm{fill:#dff2e1;stroke:#3b8a45}
.pending{fill:#fff1d6;stroke:#b27a12}
.alarm{fill:#fbe3e4;stroke:#a3262a}
@media (prefers-color-scheme:dark){
text{fill:#dde5ec}
.said,.under{fill:#9fadba}
.paper{fill:#14191f}
.rule{stroke:#28313a}
.life{stroke:#6d7a87}
.node{fill:#222c36;stroke:#6d7a87}
.sent,.head,.waiting{stroke:#6fb1f5}
.start{fill:#6fb1f5}
.lost,.cross{stroke:#f08a8d}
.label,.label-left{fill:#b7d7f8;stroke:#14191f}
.plain{fill:#14191f;stroke:#8b98a5}
.calm{fill:#173a1d;stroke:#63b870}
.pending{fill:#40300c;stroke:#d9a441}
.alarm{fill:#451a1c;stroke:#f08a8d}
}
"
}

/// Returns the style of a drawing of several diagrams, which has headings too.
pub(crate) fn style_of_panels(alloc: Global) -> Result<String, AllocError> {
    let mut text = String::from_str(alloc, style())?;
    text.push_str(".heading{font-size:16px;font-weight:bold}\n")?;
    Ok(text)
}
